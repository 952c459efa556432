//! Laws of runs whose histories fit, as those of each run of a core do.

ghost use Rattle.sp_core.specs.PlainCore.{PlainCore};
ghost use Rattle.sp_plan.specs.PlainPlan.{PlainPlan};
ghost use Rattle.sp_machine.specs.Transfers.{Delays};
ghost use Rattle.sp_node_runs.specs.FitsLaws.{PartsFit, StagesTakeTime};

/// They are of the kind of their node, and those of its parts fit.
pub fn parts_fit()
    ensures { (core : PlainCore) (plan : PlainPlan) (delays : Delays) → PartsFit core plan delays }
{}

/// In an outer body each stage takes time in each group, where each has a slot.
pub fn stages_take_time()
    ensures { (core : PlainCore) (plan : PlainPlan) (delays : Delays) → StagesTakeTime core plan delays }
{}
