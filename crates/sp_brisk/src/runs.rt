//! Laws of plans and of the limit.

ghost use Rattle.sp_brisk.specs.RunsLaws.{BriskPlansCostWithin, BriskRunsEndWithin};
ghost use Rattle.sp_core.specs.PlainCore.{PlainCore};
ghost use Rattle.sp_machine.specs.Transfers.{Delays};
ghost use Rattle.sp_plan.specs.PlainPlan.{PlainPlan};
ghost use Rattle.std.specs.Prelude.{ℕ};

use sp_machine::cores_end_in_their_cost;
use sp_within::costs_are_within;

/// By a valid plan that is brisk, each run of a core costs no more than the limit for as many turns as the run goes around.
pub fn brisk_plans_cost_within()
    ensures { (core : PlainCore) (plan : PlainPlan) (delay : ℕ) → BriskPlansCostWithin core plan delay }
{
    costs_are_within();
}

/// And so it ends within that limit, where no transfer waits longer than a delay.
pub fn brisk_runs_end_within()
    ensures { (core : PlainCore) (plan : PlainPlan) (delays : Delays) (delay : ℕ) → BriskRunsEndWithin core plan delays delay }
{
    costs_are_within();
    cores_end_in_their_cost();
}
