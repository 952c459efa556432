//! A loop in beats.
ghost use Rattle.std.specs.Prelude.{◌≡◌, ℕ, [], ◌∷◌, ◌++◌, IfOk, OnOk};
ghost use Rattle.sp_netlist.specs.Signals.{Signals};
ghost use Rattle.sp_gates.specs.Grows.{Fills};
ghost use Rattle.sp_gates.specs.Nets.{HasNet};
ghost use Rattle.sp_gates.specs.Runs.{RunsOn};
ghost use Rattle.sp_gates.specs.Tested.{is_on};
ghost use Rattle.sp_sequence.specs.Fits.{slot_starts};
ghost use Rattle.sp_sequence.specs.Slots.{AreFirsts};
ghost use Rattle.sp_beats.specs.Beats.{RunsBeats};
ghost use Rattle.sp_beats.specs.Fits.{BeatsFit};

use crate::part::Beats;
use crate::slots::run_slots;
use sp_gates::{drive_after, on_both, on_either, on_not, one};
use sp_netlist::{Builder, Ends, NoMemory};
use sp_sequence::emit_end;
use std::alloc::Global;

/// Emits a loop in beats. Groups move on where `step` is 1: in the cycle after the start and in the one after the end of each beat.
/// With a group that comes to some slot that is the first cycle of a beat; the heads of chains of each slot that gets one start a
/// cycle later, and the beat ends where all chains of slots with a group are over. A step to which no group comes is the end. The
/// nets of its ends are 1 in the first cycles of beats in which the slots get a group.
pub fn emit(alloc: Global, builder: &mut Builder, part: &Beats) -> Result<Ends, NoMemory>
    requires { BeatsFit builder.old part.now }
    ensures fills { OnOk result (Fills builder.old builder.new (slot_starts part.now.slots.items ++ part.now.step ∷ [])) }
    ensures start { IfOk result (λ ends. ends.start ≡ part.now.start) }
    ensures done { IfOk result (λ ends. HasNet builder.new ends.done 1) }
    ensures firsts { IfOk result (λ ends. AreFirsts builder.new part.now.slots.items ends.nets.items) }
    ensures runs { IfOk result (λ ends. (s : Signals) → RunsOn s builder.new.cells → RunsBeats s (is_on s part.now.start) (is_on s part.now.more) (is_on s part.now.step) part.now.slots.items ends.nets.items (is_on s ends.done)) }
{
    let always = one(builder)?;
    let run = run_slots(
        alloc,
        builder,
        part.start,
        part.step,
        part.more,
        &part.slots,
        always,
    )?;
    let first = on_both(builder, part.step, run.comes)?;
    let end = emit_end(builder, first, run.over, always)?;
    let next = on_either(builder, part.start, end)?;
    let none = on_not(builder, run.comes)?;
    let done = on_both(builder, part.step, none)?;
    drive_after(builder, part.step, next, always)?;
    Ok(Ends {
        start: part.start,
        done,
        nets: run.firsts,
    })
}
