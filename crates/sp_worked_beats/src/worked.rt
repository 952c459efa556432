//! The worked loop.
ghost use Rattle.std.specs.Prelude.{◌≡◌, [], ◌∷◌, IfOk, OnOk};
ghost use Rattle.sp_gates.specs.Bits.{IsOne};
ghost use Rattle.sp_gates.specs.Grows.{Fills, Opens};
ghost use Rattle.sp_gates.specs.Nets.{Awaits, HasNet};

use crate::rows::slots_of;
use sp_beats::{Beats, emit};
use sp_gates::{constant, delay, hold, one, reserve};
use sp_netlist::{Builder, Cell, Child, NetId, Netlist, NoMemory};
use std::alloc::Global;

/// A part that is done so many cycles after its start.
fn child(builder: &mut Builder, cycles: u32, one: NetId) -> Result<Child, NoMemory>
    requires { IsOne builder.old one }
    ensures opens { IfOk result (λ child. Opens builder.old builder.new child.start) }
    ensures start { IfOk result (λ child. Awaits builder.new child.start 1) }
    ensures done { IfOk result (λ child. HasNet builder.new child.done 1) }
{
    let start = reserve(builder, 1)?;
    let done = delay(builder, 1, start, cycles, one)?;
    Ok(Child { start, done })
}

/// A loop of two groups in two slots, whose members are done 1 and 3 cycles after their starts. It is started in cycle 0.
fn two_slots(alloc: Global, builder: &mut Builder) -> Result<NetId, NoMemory>
    ensures fills { OnOk result (Fills builder.old builder.new []) }
    ensures done { IfOk result (λ done. HasNet builder.new done 1) }
{
    let always = one(builder)?;
    let zero = constant(builder, 1, 0)?;
    let start = hold(builder, 1, 1, zero, always)?;
    let step = reserve(builder, 1)?;
    let second = hold(builder, 1, 1, zero, step)?;
    let more = hold(builder, 1, 1, second, step)?;
    let a = child(builder, 1, always)?;
    let b = child(builder, 3, always)?;
    let slots = slots_of(alloc, a, b)?;
    let part = Beats {
        start,
        more,
        step,
        slots,
    };
    let ends = emit(alloc, builder, &part)?;
    Ok(ends.done)
}

/// The same as a netlist that is done where the loop is.
pub fn worked_loop(alloc: Global) -> Result<Netlist, NoMemory> {
    let mut builder = Builder::new(alloc);
    let done = two_slots(alloc, &mut builder)?;
    builder.add(Cell::Done(done))?;
    builder.finish(alloc)
}
