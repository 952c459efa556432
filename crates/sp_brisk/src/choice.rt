//! Laws of chosen plans.

ghost use Rattle.sp_brisk.specs.ChoiceLaws.{ChosenPlansAreBrisk, ChosenPlansKeepToLimit};
ghost use Rattle.sp_core.specs.PlainCore.{PlainCore};
ghost use Rattle.sp_machine.specs.Transfers.{Delays};
ghost use Rattle.sp_plan.specs.PlainPlan.{PlainPlan};
ghost use Rattle.std.specs.Prelude.{ℕ};

use crate::runs::{brisk_plans_cost_within, brisk_runs_end_within};
use sp_plans::chosen_plans_are_valid;

/// By the plan that is chosen for a core, no inner body takes longer than its operations one after the other, nor begins its
/// groups further apart than it takes.
pub fn chosen_plans_are_brisk()
    ensures { ChosenPlansAreBrisk }
{}

/// So by a chosen plan each run costs no more than the limit for as many turns as the run goes around, and ends within it.
pub fn chosen_plans_keep_to_limit()
    ensures { (core : PlainCore) (plan : PlainPlan) (delays : Delays) (delay : ℕ) → ChosenPlansKeepToLimit core plan delays delay }
{
    chosen_plans_are_valid();
    chosen_plans_are_brisk();
    brisk_plans_cost_within();
    brisk_runs_end_within();
}
