//! Slots, one after the other.
ghost use Rattle.std.specs.Prelude.{◌≡◌, ℕ, [], ◌∷◌, ◌++◌, IfOk, OnOk, List, All};
ghost use Rattle.sp_netlist.specs.Draft.{Draft};
ghost use Rattle.sp_netlist.specs.Signals.{Signals};
ghost use Rattle.sp_gates.specs.Bits.{IsOne};
ghost use Rattle.sp_gates.specs.Grows.{Fills};
ghost use Rattle.sp_gates.specs.Nets.{HasNet};
ghost use Rattle.sp_gates.specs.Runs.{RunsOn};
ghost use Rattle.sp_gates.specs.Tested.{is_on};
ghost use Rattle.sp_sequence.specs.Fits.{AreSlots, SequenceFits, slot_starts};
ghost use Rattle.sp_sequence.specs.Members.{IsAfter};
ghost use Rattle.sp_sequence.specs.Slots.{RunsSlots, AreFirsts};

use crate::chains::{emit_chains, emit_end};
use crate::part::{Sequence, Slot};
use sp_gates::{delay, one};
use sp_netlist::{Builder, Ends, NetId, NoMemory};
use std::alloc::Global;

/// The net of the end, and those of the first cycles of slots.
#[derive(Debug, Drop)]
struct Run {
    done: NetId,
    firsts: Vec<NetId>,
}

/// A net that is 1 in the cycle after each one in which the other is.
fn later(builder: &mut Builder, net: NetId, one: NetId) -> Result<NetId, NoMemory>
    requires net { HasNet builder.old net 1 }
    requires one { IsOne builder.old one }
    ensures fills { OnOk result (Fills builder.old builder.new []) }
    ensures net { IfOk result (λ late. HasNet builder.new late 1) }
    ensures after { IfOk result (λ late. (s : Signals) → RunsOn s builder.new.cells → IsAfter (is_on s late) (is_on s net)) }
{
    let late = delay(builder, 1, net, 1, one)?;
    Ok(late)
}

/// Runs slots one after the other; the first cycle of the first one comes after each one in which `cause` is 1.
fn run_slots(
    alloc: Global,
    builder: &mut Builder,
    cause: NetId,
    slots: &[Slot],
    one: NetId,
) -> Result<Run, NoMemory>
    requires cause { HasNet builder.old cause 1 }
    requires slots { AreSlots builder.old slots.now }
    requires one { IsOne builder.old one }
    ensures fills { OnOk result (Fills builder.old builder.new (slot_starts slots.now)) }
    ensures net { IfOk result (λ run. HasNet builder.new run.done 1) }
    ensures firsts { IfOk result (λ run. AreFirsts builder.new slots.now run.firsts.items) }
    ensures runs { IfOk result (λ run. (s : Signals) → RunsOn s builder.new.cells → RunsSlots s (is_on s cause) slots.now run.firsts.items (is_on s run.done)) }
{
    let first = later(builder, cause, one)?;
    let [slot, rest @ ..] = slots else {
        return Ok(Run {
            done: first,
            firsts: Vec::new(alloc),
        });
    };
    let all = emit_chains(builder, first, &slot.chains, one)?;
    let end = emit_end(builder, first, all, one)?;
    let others = run_slots(alloc, builder, end, rest, one)?;
    let done = others.done;
    let mut firsts = others.firsts;
    firsts.insert(0, first)?;
    Ok(Run { done, firsts })
}

/// Emits a sequence. Its first slot has its first cycle after the start, and each other one after the end of the one before
/// it; the heads of a slot's chains start a cycle later, and the end of a slot is where all of its chains are over. It is done
/// in the cycle after the end of the last one. The nets of its ends are 1 in the first cycles of the slots.
pub fn emit(alloc: Global, builder: &mut Builder, part: &Sequence) -> Result<Ends, NoMemory>
    requires { SequenceFits builder.old part.now }
    ensures fills { OnOk result (Fills builder.old builder.new (slot_starts part.now.slots.items)) }
    ensures start { IfOk result (λ ends. ends.start ≡ part.now.start) }
    ensures done { IfOk result (λ ends. HasNet builder.new ends.done 1) }
    ensures firsts { IfOk result (λ ends. AreFirsts builder.new part.now.slots.items ends.nets.items) }
    ensures runs { IfOk result (λ ends. (s : Signals) → RunsOn s builder.new.cells → RunsSlots s (is_on s part.now.start) part.now.slots.items ends.nets.items (is_on s ends.done)) }
{
    let always = one(builder)?;
    let made = run_slots(alloc, builder, part.start, &part.slots, always)?;
    Ok(Ends {
        start: part.start,
        done: made.done,
        nets: made.firsts,
    })
}
