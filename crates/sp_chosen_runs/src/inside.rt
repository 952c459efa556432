//! Laws of elements.

ghost use Rattle.sp_core.specs.PlainCore.{PlainCore};
ghost use Rattle.sp_chosen_runs.specs.InsideLaws.{RunsStayInside, TimelinesStayInside};
ghost use Rattle.sp_machine.specs.Transfers.{Delays};
ghost use Rattle.sp_plan.specs.PlainPlan.{PlainPlan};

use sp_contents::runs_are_allowed;

/// Each read and each write of a run in lanes of a core is at one index for each dimension of its memory, inside of it.
pub fn runs_stay_inside()
    ensures { (core : PlainCore) → RunsStayInside core }
{
    runs_are_allowed();
}

/// So it is in the timeline of the run, by any plan.
pub fn timelines_stay_inside()
    ensures { (core : PlainCore) (plan : PlainPlan) (delays : Delays) → TimelinesStayInside core plan delays }
{
    runs_stay_inside();
}
