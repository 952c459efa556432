//! Laws of circuits of trees. Each function does nothing: what it ensures is the law.

ghost use Rattle.sp_core.specs.PlainCore.{PlainCore};
ghost use Rattle.sp_machine.specs.Transfers.{Delays};
ghost use Rattle.sp_plan.specs.PlainPlan.{PlainPlan};
ghost use Rattle.sp_tree_circuits.specs.Given.{Laws};
ghost use Rattle.sp_tree_circuits.specs.Laws.{CirclesClose, CircuitsAreBuilt, CircuitsGo, CoresGo};
ghost use Rattle.sp_tree_circuits.specs.Told.{LoopsAreTold};

use sp_machine::timelines_tell_all;
use sp_node_runs::{
    bodies_are_told, bodies_come_in_turn, bounds_stand, branches_of_nodes_work,
    counted_inners_work, lists_work, loops_of_nodes_work, loops_tell, machines_of_nodes_work,
    parts_fit, rows_stand, sides_are_told, sides_come_in_turn, single_inners_work, spans_stand,
    stages_are_told, stages_come_in_turn, stages_take_time,
};
use sp_part_runs::{loops_are_in_timeline, words_go_along};
use sp_time::beats_in_order;
use sp_tree_runs::{inners_run_so, loops_have_groups, parts_are_done, tests_tell, turns_tell};

/// The laws of the crates below, together.
fn laws_below()
    ensures { (core : PlainCore) (plan : PlainPlan) (delays : Delays) → Laws core plan delays }
{
    timelines_tell_all();
    sides_come_in_turn();
    bodies_come_in_turn();
    stages_come_in_turn();
    sides_are_told();
    bodies_are_told();
    stages_are_told();
    branches_of_nodes_work();
    machines_of_nodes_work();
    loops_of_nodes_work();
    parts_fit();
    stages_take_time();
    parts_are_done();
    inners_run_so();
    tests_tell();
    turns_tell();
    loops_have_groups();
    counted_inners_work();
    single_inners_work();
    lists_work();
    bounds_stand();
    spans_stand();
    rows_stand();
    loops_tell();
    beats_in_order();
    loops_are_in_timeline();
    words_go_along();
}

/// Where the circuit of a loop in beats goes as the timeline says up to a cycle, it is told one cycle further whether groups come, and of
/// its members, in the cycles in which their turns are told, whether they are wanted.
pub fn loops_are_told()
    ensures { (core : PlainCore) (plan : PlainPlan) (delays : Delays) → LoopsAreTold core plan delays }
{
    laws_below();
}

/// Where the circuit of a tree is started in the cycles of the runs of its root, up to a cycle, the counters around it stand, what it
/// reads is answered with what the timeline found, and its transfers move in time, each part of it is started in the cycles of its own
/// runs and done where they are over, and each access acts at the events of its operation and at no other, up to that cycle.
pub fn circuits_go_as_told()
    ensures { (core : PlainCore) (plan : PlainPlan) (delays : Delays) → CircuitsGo core plan delays }
{
    laws_below();
}

/// Such a circuit is built as the laws of trees ask for it (`bodies_go_as_told` of `sp_tree_runs`), up to a cycle, where it is started
/// in time up to the cycle before.
pub fn circuits_are_built()
    ensures { (core : PlainCore) (plan : PlainPlan) (delays : Delays) → CircuitsAreBuilt core plan delays }
{
    laws_below();
}

/// The circuit of a core's root, around which nothing stands, goes so where it is started once.
pub fn cores_go_as_told()
    ensures { (core : PlainCore) (plan : PlainPlan) (delays : Delays) → CoresGo core plan delays }
{
    circuits_go_as_told();
}

/// Where what is answered up to each cycle, and the transfers that move up to it, follow from what was done before that cycle, a
/// core's circuit goes as long as it is started once.
pub fn circles_close()
    ensures { (core : PlainCore) (plan : PlainPlan) (delays : Delays) → CirclesClose core plan delays }
{
    cores_go_as_told();
}
