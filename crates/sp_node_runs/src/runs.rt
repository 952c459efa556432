//! Laws of the runs of parts. Each function does nothing: what it ensures is the law.

ghost use Rattle.sp_core.specs.PlainCore.{PlainCore};
ghost use Rattle.sp_plan.specs.PlainPlan.{PlainPlan};
ghost use Rattle.sp_machine.specs.Transfers.{Delays};
ghost use Rattle.sp_node_runs.specs.RunsLaws.{BodiesComeInTurn, SidesComeInTurn, StagesComeInTurn};
ghost use Rattle.sp_node_runs.specs.RunsTold.{BodiesAreTold, SidesAreTold, StagesAreTold};

use sp_time::beats_in_order;

/// Where runs of a branch come one after the other, so do those of each of its sides.
pub fn sides_come_in_turn()
    ensures { (core : PlainCore) (plan : PlainPlan) (delays : Delays) → SidesComeInTurn core plan delays }
{}

/// Where runs of an FSM come one after the other, so do those of its body.
pub fn bodies_come_in_turn()
    ensures { (core : PlainCore) (plan : PlainPlan) (delays : Delays) → BodiesComeInTurn core plan delays }
{}

/// Where runs of an outer body come one after the other, so do those of each of its stages.
pub fn stages_come_in_turn()
    ensures { (core : PlainCore) (plan : PlainPlan) (delays : Delays) → StagesComeInTurn core plan delays }
{
    beats_in_order();
}

/// What happens in runs of a branch is its tests, and what happens in the runs of its sides.
pub fn sides_are_told()
    ensures { (core : PlainCore) (plan : PlainPlan) (delays : Delays) → SidesAreTold core plan delays }
{}

/// What happens in runs of an FSM is its starts, tests and next words, and what happens in the runs of its body.
pub fn bodies_are_told()
    ensures { (core : PlainCore) (plan : PlainPlan) (delays : Delays) → BodiesAreTold core plan delays }
{}

/// What happens in runs of an outer body is its bounds, memories made fresh, and what happens in the runs of its stages.
pub fn stages_are_told()
    ensures { (core : PlainCore) (plan : PlainPlan) (delays : Delays) → StagesAreTold core plan delays }
{}
