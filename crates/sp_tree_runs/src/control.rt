//! A law of trees of control. The function does nothing: what it ensures is the law.

ghost use Rattle.sp_core.specs.PlainCore.{PlainCore};
ghost use Rattle.sp_plan.specs.PlainPlan.{PlainPlan};
ghost use Rattle.sp_machine.specs.Transfers.{Delays};
ghost use Rattle.sp_tree_runs.specs.ControlLaws.{TreesDo};
ghost use Rattle.sp_tree_runs.specs.ControlStarting.{TreesGo};

use sp_node_runs::{
    bodies_come_in_turn, branches_of_nodes_work, loops_of_nodes_work, machines_of_nodes_work,
    parts_fit, sides_come_in_turn, stages_come_in_turn, stages_take_time,
};

/// Where inner bodies, transfers and lists of operations do the runs that the timeline gives them, and each node's circuit is put
/// together of those of its parts, the whole does its runs: it is done exactly where they are over, up to a cycle.
pub fn trees_do_their_runs()
    ensures { (core : PlainCore) (plan : PlainPlan) (delays : Delays) → TreesDo core plan delays }
{
    branches_of_nodes_work();
    machines_of_nodes_work();
    loops_of_nodes_work();
    parts_fit();
    stages_take_time();
    sides_come_in_turn();
    bodies_come_in_turn();
    stages_come_in_turn();
}

/// Where the whole is started in the cycles of its runs, up to a cycle, each of its parts is started in the cycles of its own runs
/// and in no other, and done where these are over.
pub fn trees_go_as_told()
    ensures { (core : PlainCore) (plan : PlainPlan) (delays : Delays) → TreesGo core plan delays }
{
    branches_of_nodes_work();
    machines_of_nodes_work();
    loops_of_nodes_work();
    parts_fit();
    stages_take_time();
    sides_come_in_turn();
    bodies_come_in_turn();
    stages_come_in_turn();
}
