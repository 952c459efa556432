//! Laws of plans for a core's own forms and meets.

ghost use Rattle.sp_core.specs.PlainCore.{PlainCore};
ghost use Rattle.sp_machine.specs.Transfers.{Delays};
ghost use Rattle.sp_chosen_runs.specs.PlansLaws.{OwnPlansAreSound};
ghost use Rattle.sp_plan.specs.PlainPlan.{PlainPlan};

use crate::ports::runs_share_no_port;
use sp_contents::{first_contents_agree, planned_runs_are_found};
use sp_meets_hold::meets_hold;

/// By a plan that is valid for a core's own forms and meets, in each run of the core each moment finds in its own cycle what it
/// finds in the order of the text, and no run of an inner body shares a port of a bank, other than as one tap.
pub fn own_plans_are_sound()
    ensures { (core : PlainCore) (plan : PlainPlan) (delays : Delays) → OwnPlansAreSound core plan delays }
{
    first_contents_agree();
    planned_runs_are_found();
    runs_share_no_port();
    meets_hold();
}
