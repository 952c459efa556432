//! Laws of the numbers of events. Each function does nothing: what it ensures is the law.

ghost use Rattle.sp_core.specs.PlainCore.{PlainCore, PlainNode};
ghost use Rattle.sp_machine.specs.Transfers.{Delays};
ghost use Rattle.sp_plan.specs.PlainPlan.{PlainPlan};
ghost use Rattle.sp_tree_events.specs.ToldExample.{WorkedItems};
ghost use Rattle.sp_tree_events.specs.ToldLaws.{EventsAreOfItems, NumbersAreWithin, NumbersStandForOne, TimelinesAreOfItems, TransfersMove};

use sp_machine::timelines_tell_all;

/// No number stands for two operations or transfers.
pub fn numbers_stand_for_one()
    ensures { (node : PlainNode) → NumbersStandForOne node }
{}

/// Each event of a run is of an operation or a transfer that the core has at its number: an operation's is an act of its kind on
/// its memory.
pub fn events_are_of_items()
    ensures { (core : PlainCore) → EventsAreOfItems core }
{}

/// So is each event of the run's timeline, by any plan.
pub fn timelines_are_of_items()
    ensures { (core : PlainCore) (plan : PlainPlan) (delays : Delays) → TimelinesAreOfItems core plan delays }
{
    timelines_tell_all();
}

/// What happens in a run of a part has the numbers of the part's items.
pub fn numbers_are_within()
    ensures { (core : PlainCore) (node : PlainNode) → NumbersAreWithin core node }
{}

/// The memory of a transfer is an SRAM or a line buffer.
pub fn transfers_move()
    ensures { (core : PlainCore) → TransfersMove core }
{}

/// Operations of a worked core by their numbers. It does nothing: what it ensures is the example.
pub fn worked_items()
    ensures { WorkedItems }
{}
