//! Laws of plans.

ghost use Rattle.sp_core.specs.PlainCore.{PlainCore};
ghost use Rattle.sp_machine.specs.Transfers.{Delays};
ghost use Rattle.sp_overlap.specs.Laws.{OverlapsPrecede};
ghost use Rattle.sp_overlap.specs.Whole.{PlannedRunsInOrder, PlansAreSound};
ghost use Rattle.sp_plan.specs.PlainPlan.{PlainPlan};

/// In an outer body whose slots, chains and copies are right, runs of stages that clash come one after the other, by beats or
/// in a chain, and a copy of a memory is made fresh between the groups that use it.
pub fn overlaps_come_in_turn()
    ensures { (core : PlainCore) (plan : PlainPlan) (delays : Delays) → OverlapsPrecede core plan delays }
{}

/// A valid plan of a core makes each part of a run sound whose events stand in the core's meets.
pub fn plans_are_sound()
    ensures { (core : PlainCore) (plan : PlainPlan) (delays : Delays) → PlansAreSound core plan delays }
{}

/// What happens in a run of a core, in the cycles that a valid plan gives it, comes in order: of two moments at one place of one
/// copy the second one in the order of the text waits for the first, whatever the delays of its transfers are.
pub fn planned_runs_come_in_order()
    ensures { (core : PlainCore) (plan : PlainPlan) (delays : Delays) → PlannedRunsInOrder core plan delays }
{}
