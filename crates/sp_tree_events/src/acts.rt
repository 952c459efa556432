//! Laws of what owners do. Each function does nothing: what it ensures is the law.

ghost use Rattle.sp_core.specs.PlainCore.{PlainCore};
ghost use Rattle.sp_machine.specs.Transfers.{Delays};
ghost use Rattle.sp_tree_events.specs.ActsExample.{WorkedOwners};
ghost use Rattle.sp_tree_events.specs.ActsKeeping.{MachinesKeep};
ghost use Rattle.sp_tree_events.specs.ActsRenewing.{LoopsRenew};
ghost use Rattle.sp_plan.specs.PlainPlan.{PlainPlan};

use crate::owners::runs_own;
use sp_machine::timelines_tell_all;
use sp_node_runs::{bodies_are_told, stages_are_told};
use sp_part_runs::{loops_are_in_timeline, numbers_go_round};
use sp_time::beats_in_order;

/// The wire that tells where the first slot that uses a memory gets a group is 1 where the loop makes the memory fresh and nowhere
/// else, and the number that comes there is that of the copy.
pub fn loops_renew()
    ensures { (core : PlainCore) (plan : PlainPlan) (delays : Delays) → LoopsRenew core plan delays }
{
    beats_in_order();
    loops_are_in_timeline();
    numbers_go_round();
    runs_own();
    stages_are_told();
    timelines_tell_all();
}

/// An FSM keeps its state where its start or its next state is over and nowhere else, with the word of that list.
pub fn machines_keep()
    ensures { (core : PlainCore) (plan : PlainPlan) (delays : Delays) → MachinesKeep core plan delays }
{
    bodies_are_told();
    runs_own();
    timelines_tell_all();
}

/// Owners of worked memories. It does nothing: what it ensures is the example.
pub fn worked_owners()
    ensures { WorkedOwners }
{}
