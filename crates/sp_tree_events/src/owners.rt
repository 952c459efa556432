//! Laws of owners. Each function does nothing: what it ensures is the law.

ghost use Rattle.sp_core.specs.PlainCore.{PlainCore, PlainNode};
ghost use Rattle.sp_machine.specs.Transfers.{Delays};
ghost use Rattle.sp_tree_events.specs.OwnersExample.{WorkedDeeds};
ghost use Rattle.sp_tree_events.specs.OwnersOwning.{BodiesOwn, RunsOwn, SidesOwn, StagesOwn};
ghost use Rattle.sp_plan.specs.PlainPlan.{PlainPlan};

use sp_machine::timelines_tell_all;
use sp_node_runs::{bodies_are_told, sides_are_told, stages_are_told};

/// What owners do in runs of a node is done to memories that the node, or a part of it, owns.
pub fn runs_own()
    ensures { (core : PlainCore) (node : PlainNode) → RunsOwn core node }
{}

/// So what is done by owners to a memory that one side of a branch alone may own is done in the runs of that side.
pub fn sides_own()
    ensures { (core : PlainCore) (plan : PlainPlan) (delays : Delays) → SidesOwn core plan delays }
{
    runs_own();
    sides_are_told();
    timelines_tell_all();
}

/// To a memory that isn't the state of an FSM, in the runs of its body.
pub fn bodies_own()
    ensures { (core : PlainCore) (plan : PlainPlan) (delays : Delays) → BodiesOwn core plan delays }
{
    bodies_are_told();
    runs_own();
    timelines_tell_all();
}

/// And to one that one stage of an outer body alone may own, in the runs of that stage.
pub fn stages_own()
    ensures { (core : PlainCore) (plan : PlainPlan) (delays : Delays) → StagesOwn core plan delays }
{
    runs_own();
    stages_are_told();
    timelines_tell_all();
}

/// Deeds of a worked run. It does nothing: what it ensures is the example.
pub fn worked_deeds()
    ensures { WorkedDeeds }
{}
