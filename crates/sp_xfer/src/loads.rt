//! Loads.
ghost use Rattle.std.specs.Prelude.{◌≡◌, ℕ, suc, [], ◌∷◌, All, IfOk, OnOk};
ghost use Rattle.sp_netlist.specs.Signals.{Signals};
ghost use Rattle.sp_gates.specs.Bits.{IsOne};
ghost use Rattle.sp_gates.specs.Grows.{Fills};
ghost use Rattle.sp_gates.specs.Nets.{Awaits, HasNet};
ghost use Rattle.sp_gates.specs.Runs.{RunsOn};
ghost use Rattle.sp_xfer.specs.Fits.{IsLoaded, LoadFits};
ghost use Rattle.sp_xfer.specs.Moving.{RunsLoad, words_at};

use crate::moving::{after, move_slice};
use crate::part::{Load, Loaded, Wires};
use sp_gates::{hold, one, reserve};
use sp_netlist::{Builder, NetId, NoMemory};
use sp_slices::range_offsets;
use std::alloc::Global;

/// Nets of 32 bits with the words that others had one cycle before. `one` is always 1.
fn late_all(
    alloc: Global,
    builder: &mut Builder,
    nets: &[NetId],
    one: NetId,
) -> Result<Vec<NetId>, NoMemory>
    requires nets { All (λ net. HasNet builder.old net 32) nets.now }
    requires one { IsOne builder.old one }
    ensures fills { OnOk result (Fills builder.old builder.new []) }
    ensures late_nets { IfOk result (λ late. All (λ net. HasNet builder.new net 32) late.items) }
    ensures words { IfOk result (λ late. (s : Signals) → RunsOn s builder.new.cells → (t : ℕ) → words_at s (suc t) late.items ≡ words_at s t nets.now) }
{
    let [net, nets @ ..] = nets else {
        return Ok(Vec::new(alloc));
    };
    let own = hold(builder, 32, 0, *net, one)?;
    let mut late = late_all(alloc, builder, nets, one)?;
    late.insert(0, own)?;
    Ok(late)
}

/// Emits a load that is done where a reserved net is 1. Its slice is taken in the cycle of the start and asked for in the next one. Each
/// word is written on the chip in the cycle after the one in which it moves, and the load is done in the one in which the last word is
/// written; without a word it is done two cycles after the start.
pub fn emit_load_to(
    alloc: Global,
    builder: &mut Builder,
    part: &Load,
    done: NetId,
) -> Result<Loaded, NoMemory>
    requires part { LoadFits builder.old part.now }
    requires done { Awaits builder.old done 1 }
    ensures fills { OnOk result (Fills builder.old builder.new (done ∷ part.now.port.request ∷ part.now.port.last ∷ part.now.port.address ∷ [])) }
    ensures nets { IfOk result (IsLoaded builder.new) }
    ensures done { IfOk result (λ nets. nets.moving.done ≡ done) }
    ensures runs { IfOk result (λ nets. (s : Signals) → RunsOn s builder.new.cells → RunsLoad s part.now nets) }
{
    let always = one(builder)?;
    let wires = Wires {
        start: part.start,
        ready: part.port.ready,
        request: part.port.request,
        last: part.port.last,
        address: part.port.address,
    };
    let moving = move_slice(
        alloc,
        builder,
        &wires,
        &part.dims,
        &part.moves,
        done,
        always,
    )?;
    let write = after(builder, moving.moved, always)?;
    let offsets = range_offsets(alloc, &part.moves, &moving.walk.axes)?;
    let indices = late_all(alloc, builder, &offsets, always)?;
    Ok(Loaded {
        moving,
        write,
        indices,
    })
}

/// Emits a load, as `emit_load_to` does, with a net of its own for where it is done.
pub fn emit_load(alloc: Global, builder: &mut Builder, part: &Load) -> Result<Loaded, NoMemory>
    requires { LoadFits builder.old part.now }
    ensures fills { OnOk result (Fills builder.old builder.new (part.now.port.request ∷ part.now.port.last ∷ part.now.port.address ∷ [])) }
    ensures nets { IfOk result (IsLoaded builder.new) }
    ensures runs { IfOk result (λ nets. (s : Signals) → RunsOn s builder.new.cells → RunsLoad s part.now nets) }
{
    let done = reserve(builder, 1)?;
    let nets = emit_load_to(alloc, builder, part, done)?;
    Ok(nets)
}
