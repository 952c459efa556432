//! Laws of trees of nodes and their inner bodies. Each function does nothing: what it ensures is the law.

ghost use Rattle.sp_core.specs.PlainCore.{PlainCore};
ghost use Rattle.sp_plan.specs.PlainPlan.{PlainPlan};
ghost use Rattle.sp_machine.specs.Transfers.{Delays};
ghost use Rattle.sp_tree_runs.specs.BodiesBuilt.{BodiesGoAsTold, ListsDo};
ghost use Rattle.sp_tree_runs.specs.BodiesDone.{RunsAreDone};
ghost use Rattle.sp_tree_runs.specs.BodiesLanes.{LoopsHaveGroups};
ghost use Rattle.sp_tree_runs.specs.BodiesScoped.{DoneSo, ScopedParts};
ghost use Rattle.sp_tree_runs.specs.BodiesScopes.{InnersRunSo, ScopesAreFound, TestsTell};
ghost use Rattle.sp_tree_runs.specs.BodiesTurns.{TurnsTell};

use crate::control::trees_go_as_told;
use sp_node_runs::{counted_inners_work, lists_work, single_inners_work};

/// In a run of a node each list of operations, at all depths, did what its operations do in the scope of the counters around it.
pub fn runs_are_done()
    ensures { RunsAreDone }
{}

/// The runs of the parts of a node, with the counters around each, are those of the timeline, and did what their operations do where
/// the runs of the node did.
pub fn parts_are_done()
    ensures parts { (core : PlainCore) (plan : PlainPlan) (delays : Delays) → ScopedParts core plan delays }
    ensures bodies { (core : PlainCore) (plan : PlainPlan) (delays : Delays) → DoneSo core plan delays }
{}

/// Each list of operations in what is built does its runs.
pub fn lists_do()
    ensures { (core : PlainCore) (plan : PlainPlan) (delays : Delays) → ListsDo core plan delays }
{
    lists_work();
}

/// A run of a loop has a group for each of its loops' values, and a stage runs in it exactly where one of its lanes has an iteration.
pub fn loops_have_groups()
    ensures { (core : PlainCore) (plan : PlainPlan) (delays : Delays) → LoopsHaveGroups core plan delays }
{}

/// Where the whole is started in the cycles of its runs, up to a cycle, each inner body and each list of operations of the tree is done
/// where its own runs are over; each access of a body acts at the events of the timeline and nowhere else, and each access of a list
/// in its runs and nowhere else.
pub fn bodies_go_as_told()
    ensures { (core : PlainCore) (plan : PlainPlan) (delays : Delays) → BodiesGoAsTold core plan delays }
{
    counted_inners_work();
    lists_work();
    single_inners_work();
    trees_go_as_told();
}

/// The counters around each run are told by the cycle in which it begins; with them the runs of an inner body are what its law asks
/// for, where the counters around stand.
pub fn inners_run_so()
    ensures found { (core : PlainCore) (plan : PlainPlan) (delays : Delays) → ScopesAreFound core plan delays }
    ensures runs { (core : PlainCore) (plan : PlainPlan) (delays : Delays) → InnersRunSo core plan delays }
{}

/// The circuit of the test of a branch does its runs, and its word tells in each which side was taken.
pub fn tests_tell()
    ensures { (core : PlainCore) (plan : PlainPlan) (delays : Delays) → TestsTell core plan delays }
{
    lists_work();
}

/// The circuits of the start, the test and the next word of an FSM do their runs, turn after turn, and the test's word tells in each
/// whether the FSM goes on.
pub fn turns_tell()
    ensures { (core : PlainCore) (plan : PlainPlan) (delays : Delays) → TurnsTell core plan delays }
{
    lists_work();
}
