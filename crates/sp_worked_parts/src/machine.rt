//! An FSM that counts its turns.
ghost use Rattle.std.specs.Prelude.{◌∷◌, [], IfOk, OnOk};
ghost use Rattle.sp_gates.specs.Bits.{IsOne};
ghost use Rattle.sp_gates.specs.Grows.{Fills, Opens};
ghost use Rattle.sp_gates.specs.Nets.{Awaits, HasNet};
ghost use Rattle.sp_ctrl.specs.Fits.{IsChild, PartFits, starts_of};

use crate::count::{below, plus};
use crate::outputs::output;
use sp_ctrl::{Part, emit};
use sp_gates::{constant, delay, drive, hold, one, reserve};
use sp_netlist::{Builder, Cell, Child, NetId, Netlist, NoMemory};
use std::alloc::Global;

/// A part that is done so many cycles after its start.
fn child(builder: &mut Builder, cycles: u32, one: NetId) -> Result<Child, NoMemory>
    requires { IsOne builder.old one }
    ensures opens { IfOk result (λ child. Opens builder.old builder.new child.start) }
    ensures child { IfOk result (IsChild builder.new) }
{
    let start = reserve(builder, 1)?;
    let done = delay(builder, 1, start, cycles, one)?;
    Ok(Child { start, done })
}

/// A net that is 1 in cycle 0 alone.
pub(crate) fn begin(builder: &mut Builder, one: NetId) -> Result<NetId, NoMemory>
    requires { IsOne builder.old one }
    ensures fills { OnOk result (Fills builder.old builder.new []) }
    ensures net { IfOk result (λ net. HasNet builder.new net 1) }
{
    let zero = constant(builder, 1, 0)?;
    let start = hold(builder, 1, 1, zero, one)?;
    Ok(start)
}

/// The net that is 1 where a part of control is done.
fn done_of(alloc: Global, builder: &mut Builder, part: Part) -> Result<NetId, NoMemory>
    requires { PartFits builder.old part }
    ensures fills { OnOk result (Fills builder.old builder.new (starts_of part)) }
    ensures done { IfOk result (λ done. HasNet builder.new done 1) }
{
    let ends = emit(alloc, builder, part)?;
    Ok(ends.done)
}

/// The machine is started in cycle 0. Its state, the number of turns that are over, is `y`, and it goes on while that is below
/// `turns`. Its body is done two cycles after its start, the other parts one.
fn machine(alloc: Global, builder: &mut Builder, y: NetId, turns: u32) -> Result<NetId, NoMemory>
    requires { Awaits builder.old y 32 }
    ensures fills { OnOk result (Fills builder.old builder.new (y ∷ [])) }
    ensures done { IfOk result (λ done. HasNet builder.new done 1) }
{
    let always = one(builder)?;
    let start = begin(builder, always)?;
    let tested = below(builder, y, turns)?;
    let more = plus(builder, y, 1)?;
    let next = child(builder, 1, always)?;
    let body = child(builder, 2, always)?;
    let test = child(builder, 1, always)?;
    let first = child(builder, 1, always)?;
    let over = next.done;
    let part = Part::Fsm {
        start,
        first,
        test,
        tested,
        body,
        next,
    };
    let done = done_of(alloc, builder, part)?;
    drive(builder, y, 32, 0, more, over)?;
    Ok(done)
}

/// The machine as a netlist that is done where it is, with its state as the output `y`.
pub fn worked_machine(alloc: Global, turns: u32) -> Result<Netlist, NoMemory> {
    let mut builder = Builder::new(alloc);
    let y = output(alloc, &mut builder)?;
    let done = machine(alloc, &mut builder, y, turns)?;
    builder.add(Cell::Done(done))?;
    builder.finish(alloc)
}
