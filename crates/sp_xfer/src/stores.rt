//! Stores.
ghost use Rattle.std.specs.Prelude.{◌≡◌, ℕ, ◌&&◌, ◌||◌, not, [], ◌∷◌, IfOk, OnOk};
ghost use Rattle.sp_netlist.specs.Signals.{Signals};
ghost use Rattle.sp_gates.specs.Grows.{Fills};
ghost use Rattle.sp_gates.specs.Nets.{Awaits, HasNet};
ghost use Rattle.sp_gates.specs.Runs.{RunsOn};
ghost use Rattle.sp_gates.specs.Tested.{is_on};
ghost use Rattle.sp_counters.specs.Counting.{have_values};
ghost use Rattle.sp_slices.specs.Fits.{IsWalk};
ghost use Rattle.sp_xfer.specs.Ahead.{RunsStore};
ghost use Rattle.sp_xfer.specs.Fits.{IsStored, StoreFits};

use crate::ahead::look_all;
use crate::moving::{after, move_slice};
use crate::part::{Store, Stored, Wires};
use crate::reader::read_ahead;
use sp_gates::{on_both, on_either, on_not, one, reserve};
use sp_netlist::{Builder, NetId, NoMemory};
use sp_slices::{Walk, has_word, walk as walk_through};
use sp_taps::connect;
use std::alloc::Global;

/// A net that is 1 where a word is read: the first one at the start, where there is one, and one where a walk goes on and another word is
/// left.
fn reading(builder: &mut Builder, start: NetId, step: NetId, look: &Walk) -> Result<NetId, NoMemory>
    requires start { HasNet builder.old start 1 }
    requires step { HasNet builder.old step 1 }
    requires look { IsWalk builder.old look.now }
    ensures fills { OnOk result (Fills builder.old builder.new []) }
    ensures net { IfOk result (λ net. HasNet builder.new net 1) }
    ensures on { IfOk result (λ net. (s : Signals) → RunsOn s builder.new.cells → (t : ℕ) → is_on s net t ≡ ((is_on s start t && have_values s look.now.counters.counters.items t) || (is_on s step t && (is_on s look.now.counted.more t && not (is_on s look.now.last t))))) }
{
    let some = has_word(builder, look)?;
    let first = on_both(builder, start, some)?;
    let before = on_not(builder, look.last)?;
    let left = on_both(builder, look.counted.more, before)?;
    let goes = on_both(builder, step, left)?;
    let read = on_either(builder, first, goes)?;
    Ok(read)
}

/// Emits a store that is done where a reserved net is 1. Its slice is taken in the cycle of the start and asked for in the next one. The first word is read on the chip in
/// the cycle of the start, the second one in the next, and each other one as a word moves; what is read stands two cycles later on the
/// net of a reader. It is done in the cycle after the last
/// word moved; without a word it is done two cycles after the start.
pub fn emit_store_to(
    alloc: Global,
    builder: &mut Builder,
    part: &Store,
    done: NetId,
) -> Result<Stored, NoMemory>
    requires part { StoreFits builder.old part.now }
    requires done { Awaits builder.old done 1 }
    ensures fills { OnOk result (Fills builder.old builder.new (done ∷ part.now.port.request ∷ part.now.port.last ∷ part.now.port.address ∷ part.now.port.word ∷ [])) }
    ensures nets { IfOk result (IsStored builder.new) }
    ensures done { IfOk result (λ nets. nets.moving.done ≡ done) }
    ensures runs { IfOk result (λ nets. (s : Signals) → RunsOn s builder.new.cells → RunsStore s part.now nets) }
{
    let always = one(builder)?;
    let wires = Wires {
        start: part.start,
        ready: part.port.ready,
        request: part.port.request,
        last: part.port.last,
        address: part.port.address,
    };
    let moving = move_slice(
        alloc,
        builder,
        &wires,
        &part.dims,
        &part.moves,
        done,
        always,
    )?;
    let begun = after(builder, part.start, always)?;
    let step = on_either(builder, begun, part.port.ready)?;
    let look = walk_through(alloc, builder, part.start, step, &part.moves)?;
    let read = reading(builder, part.start, step, &look)?;
    let ahead = look_all(alloc, builder, part.start, &part.moves, &look.axes, always)?;
    let goes = on_either(builder, part.start, step)?;
    let word = read_ahead(builder, part.width, goes, part.found, always)?;
    connect(builder, part.port.word, part.width, word, always)?;
    Ok(Stored {
        moving,
        step,
        look,
        read,
        indices: ahead.indices,
    })
}

/// Emits a store, as `emit_store_to` does, with a net of its own for where it is done.
pub fn emit_store(alloc: Global, builder: &mut Builder, part: &Store) -> Result<Stored, NoMemory>
    requires { StoreFits builder.old part.now }
    ensures fills { OnOk result (Fills builder.old builder.new (part.now.port.request ∷ part.now.port.last ∷ part.now.port.address ∷ part.now.port.word ∷ [])) }
    ensures nets { IfOk result (IsStored builder.new) }
    ensures runs { IfOk result (λ nets. (s : Signals) → RunsOn s builder.new.cells → RunsStore s part.now nets) }
{
    let done = reserve(builder, 1)?;
    let nets = emit_store_to(alloc, builder, part, done)?;
    Ok(nets)
}
