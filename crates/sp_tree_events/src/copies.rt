//! Laws of the numbers of copies. Each function does nothing: what it ensures is the law.

ghost use Rattle.sp_tree_events.specs.CopiesExample.{WorkedStanding};
ghost use Rattle.sp_tree_events.specs.CopiesLaws.{InnersNameCopies, ListsNameCopies, LoadsNameCopies, NumbersStand, StoresNameCopies};
ghost use Rattle.sp_core.specs.PlainCore.{PlainCore};
ghost use Rattle.sp_machine.specs.Transfers.{Delays};
ghost use Rattle.sp_plan.specs.PlainPlan.{PlainPlan};

use sp_machine::runs_happen_within;
use sp_part_runs::{loops_are_in_timeline, numbers_go_round};
use sp_time::beats_in_order;

/// Around each stage of a loop in beats, as long as it is at work on a group, the numbers of copies stand that are at hand in that
/// group; and where a slot gets a group, its number comes.
pub fn numbers_stand()
    ensures { (core : PlainCore) (plan : PlainPlan) (delays : Delays) → NumbersStand core plan delays }
{
    beats_in_order();
    loops_are_in_timeline();
    numbers_go_round();
}

/// Where the numbers around an inner body stand, each event of its runs is at the copy whose number stands in the event's cycle.
pub fn inners_name_copies()
    ensures { (core : PlainCore) (plan : PlainPlan) (delays : Delays) → InnersNameCopies core plan delays }
{
    runs_happen_within();
}

/// So is each event of a list of operations that are done one after the other.
pub fn lists_name_copies()
    ensures { (core : PlainCore) (plan : PlainPlan) (delays : Delays) → ListsNameCopies core plan delays }
{}

/// So is each event of a load, as it asks, and reads and writes its words.
pub fn loads_name_copies()
    ensures { (core : PlainCore) (plan : PlainPlan) (delays : Delays) → LoadsNameCopies core plan delays }
{
    runs_happen_within();
}

/// So is each event of a store, which reads the words that it writes.
pub fn stores_name_copies()
    ensures { (core : PlainCore) (plan : PlainPlan) (delays : Delays) → StoresNameCopies core plan delays }
{
    runs_happen_within();
}

/// Numbers around the stages of a worked loop. It does nothing: what it ensures is the example.
pub fn worked_standing()
    ensures { WorkedStanding }
{}
