//! A slice that moves.
ghost use Rattle.std.specs.Prelude.{◌≡◌, ◌<◌, ℕ, ◌&&◌, ◌||◌, not, List, [], ◌∷◌, length, IfOk, OnOk};
ghost use Rattle.sp_netlist.specs.Signals.{Signals};
ghost use Rattle.sp_gates.specs.Bits.{IsOne};
ghost use Rattle.sp_gates.specs.Grows.{Fills};
ghost use Rattle.sp_gates.specs.Nets.{Awaits, HasNet};
ghost use Rattle.sp_gates.specs.Runs.{RunsOn};
ghost use Rattle.sp_gates.specs.Tested.{is_on};
ghost use Rattle.sp_slices.specs.declared.part.Move.{Move};
ghost use Rattle.sp_slices.specs.Fits.{IsWalk};
ghost use Rattle.sp_slices.specs.Slices.{WalksSlice};
ghost use Rattle.sp_taps.specs.Wires.{IsWire};
ghost use Rattle.sp_xfer.specs.Fits.{IsMoving, SliceFits, WiresFit};
ghost use Rattle.sp_xfer.specs.Moving.{MovesSlice, was};

use crate::part::{Moving, Wires};
use sp_gates::{drive_after, on_both, on_either, on_not, reserve};
use sp_netlist::{Builder, Cell, CellOp, NetId, NoMemory};
use sp_slices::{Move, Walk, address, walk as walk_through};
use sp_taps::connect;
use sp_words::Ty;
use std::alloc::Global;

/// A net that is 1 in the cycle after each one in which the other is. `one` is always 1.
pub(crate) fn after(builder: &mut Builder, net: NetId, one: NetId) -> Result<NetId, NoMemory>
    requires net { HasNet builder.old net 1 }
    requires one { IsOne builder.old one }
    ensures fills { OnOk result (Fills builder.old builder.new []) }
    ensures net { IfOk result (λ late. HasNet builder.new late 1) }
    ensures on { IfOk result (λ late. (s : Signals) → RunsOn s builder.new.cells → (t : ℕ) → is_on s late t ≡ was (is_on s net) t) }
{
    let late = reserve(builder, 1)?;
    drive_after(builder, late, net, one)?;
    Ok(late)
}

/// Drives a reserved net, which is 1 in the cycle after the last word moved, or in the second one after the start of a slice without
/// a word.
fn ends(
    builder: &mut Builder,
    begun: NetId,
    more: NetId,
    moved: NetId,
    last: NetId,
    done: NetId,
    one: NetId,
) -> Result<(), NoMemory>
    requires begun { HasNet builder.old begun 1 }
    requires more { HasNet builder.old more 1 }
    requires moved { HasNet builder.old moved 1 }
    requires last { HasNet builder.old last 1 }
    requires done { Awaits builder.old done 1 }
    requires one { IsOne builder.old one }
    ensures fills { OnOk result (Fills builder.old builder.new (done ∷ [])) }
    ensures on { OnOk result ((s : Signals) → RunsOn s builder.new.cells → (t : ℕ) → is_on s done t ≡ was (λ u. (is_on s moved u && is_on s last u) || (is_on s begun u && not (is_on s more u))) t) }
{
    let over = on_both(builder, moved, last)?;
    let none = on_not(builder, more)?;
    let empty = on_both(builder, begun, none)?;
    let either = on_either(builder, over, empty)?;
    drive_after(builder, done, either, one)?;
    Ok(())
}

/// Drives a promised net of one bit: it is 1 where the other is 1, and 0 where it isn't. `one` is always 1.
fn connect_bit(builder: &mut Builder, net: NetId, from: NetId, one: NetId) -> Result<(), NoMemory>
    requires net { IsWire builder.old net 1 }
    requires from { HasNet builder.old from 1 }
    requires one { IsOne builder.old one }
    ensures fills { OnOk result (Fills builder.old builder.new (net ∷ [])) }
    ensures bit { OnOk result ((s : Signals) → RunsOn s builder.new.cells → (t : ℕ) → s.net t net < 2) }
    ensures on { OnOk result ((s : Signals) → RunsOn s builder.new.cells → (t : ℕ) → is_on s net t ≡ is_on s from t) }
{
    builder.add(Cell::Op(net, Ty::Bit, CellOp::Eq, from, one))?;
    Ok(())
}

/// Drives the nets of a unit.
fn steer(
    builder: &mut Builder,
    wires: &Wires,
    asks: NetId,
    last: NetId,
    number: NetId,
    one: NetId,
) -> Result<(), NoMemory>
    requires wires { WiresFit builder.old wires.now }
    requires asks { HasNet builder.old asks 1 }
    requires last { HasNet builder.old last 1 }
    requires number { HasNet builder.old number 32 }
    requires one { IsOne builder.old one }
    ensures fills { OnOk result (Fills builder.old builder.new (wires.now.request ∷ wires.now.last ∷ wires.now.address ∷ [])) }
    ensures request { OnOk result ((s : Signals) → RunsOn s builder.new.cells → (t : ℕ) → s.net t wires.now.request ≡ s.net t asks) }
    ensures bit { OnOk result ((s : Signals) → RunsOn s builder.new.cells → (t : ℕ) → s.net t wires.now.last < 2) }
    ensures last { OnOk result ((s : Signals) → RunsOn s builder.new.cells → (t : ℕ) → is_on s wires.now.last t ≡ is_on s last t) }
    ensures address { OnOk result ((s : Signals) → RunsOn s builder.new.cells → (t : ℕ) → s.net t wires.now.address ≡ s.net t number) }
{
    connect(builder, wires.request, 1, asks, one)?;
    connect_bit(builder, wires.last, last, one)?;
    connect(builder, wires.address, 32, number, one)?;
    Ok(())
}

/// The nets of a slice that moves: where it is asked for, and where a word moves.
#[derive(Clone, Copy, Debug)]
struct Steering {
    asks: NetId,
    moved: NetId,
}

/// Moves a slice that is walked through. `done` is reserved for where it is done.
fn control(
    builder: &mut Builder,
    wires: &Wires,
    dims: &[u32],
    walk: &Walk,
    done: NetId,
    always: NetId,
) -> Result<Steering, NoMemory>
    requires wires { WiresFit builder.old wires.now }
    requires walk { IsWalk builder.old walk.now }
    requires done { Awaits builder.old done 1 }
    requires one { IsOne builder.old always }
    ensures fills { OnOk result (Fills builder.old builder.new (done ∷ wires.now.request ∷ wires.now.last ∷ wires.now.address ∷ [])) }
    ensures asks { IfOk result (λ m. HasNet builder.new m.asks 1) }
    ensures moved { IfOk result (λ m. HasNet builder.new m.moved 1) }
    ensures moves { IfOk result (λ m. (s : Signals) (moves : List Move) → RunsOn s builder.new.cells → length dims.now ≡ length moves → WalksSlice s wires.now.start wires.now.ready moves walk.now → MovesSlice s wires.now dims.now moves (record { walk = walk.now; asks = m.asks; moved = m.moved; done = done })) }
{
    let more = walk.counted.more;
    let number = address(builder, dims, &walk.counted.counters)?;
    let begun = after(builder, wires.start, always)?;
    let asks = on_both(builder, begun, more)?;
    let moved = on_both(builder, wires.ready, more)?;
    ends(builder, begun, more, moved, walk.last, done, always)?;
    steer(builder, wires, asks, walk.last, number, always)?;
    Ok(Steering { asks, moved })
}

/// Moves a slice. `done` is reserved for where it is done.
pub(crate) fn move_slice(
    alloc: Global,
    builder: &mut Builder,
    wires: &Wires,
    dims: &[u32],
    moves: &[Move],
    done: NetId,
    always: NetId,
) -> Result<Moving, NoMemory>
    requires wires { WiresFit builder.old wires.now }
    requires slice { SliceFits builder.old dims.now moves.now }
    requires done { Awaits builder.old done 1 }
    requires one { IsOne builder.old always }
    ensures fills { OnOk result (Fills builder.old builder.new (done ∷ wires.now.request ∷ wires.now.last ∷ wires.now.address ∷ [])) }
    ensures nets { IfOk result (IsMoving builder.new) }
    ensures done { IfOk result (λ m. m.done ≡ done) }
    ensures moves { IfOk result (λ m. (s : Signals) → RunsOn s builder.new.cells → MovesSlice s wires.now dims.now moves.now m) }
{
    let walk = walk_through(alloc, builder, wires.start, wires.ready, moves)?;
    let nets = control(builder, wires, dims, &walk, done, always)?;
    Ok(Moving {
        walk,
        asks: nets.asks,
        moved: nets.moved,
        done,
    })
}
