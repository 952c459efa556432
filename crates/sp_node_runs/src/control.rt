//! Laws of control in the cycles of the timeline. Each function does nothing: what it ensures is the law.

ghost use Rattle.sp_core.specs.PlainCore.{PlainCore};
ghost use Rattle.sp_plan.specs.PlainPlan.{PlainPlan};
ghost use Rattle.sp_machine.specs.Transfers.{Delays};
ghost use Rattle.sp_node_runs.specs.ControlBeating.{LoopsOfNodesWork};
ghost use Rattle.sp_node_runs.specs.ControlLaws.{BranchesOfNodesWork, MachinesOfNodesWork};

use sp_part_runs::{branches_work, loops_are_in_timeline, loops_in_beats_work, machines_work};

/// Where its test and its sides do the runs that the timeline gives them, a branch starts them in these cycles alone, and is
/// done where its own runs are over.
pub fn branches_of_nodes_work()
    ensures { (core : PlainCore) (plan : PlainPlan) (delays : Delays) → BranchesOfNodesWork core plan delays }
{
    branches_work();
}

/// Where its start, test, body and next word do the runs that the timeline gives them, an FSM starts them in these cycles alone,
/// and is done where its own runs are over.
pub fn machines_of_nodes_work()
    ensures { (core : PlainCore) (plan : PlainPlan) (delays : Delays) → MachinesOfNodesWork core plan delays }
{
    machines_work();
}

/// Where its stages do the runs that the timeline gives them, and it is told in each beat whether one more group comes, the loop
/// of an outer body starts them in these cycles alone, and is done where its own runs are over.
pub fn loops_of_nodes_work()
    ensures { (core : PlainCore) (plan : PlainPlan) (delays : Delays) → LoopsOfNodesWork core plan delays }
{
    loops_in_beats_work();
    loops_are_in_timeline();
}
