//! A law of chosen plans.

ghost use Rattle.sp_chosen_runs.specs.ChosenLaws.{ChosenPlansRun};
ghost use Rattle.sp_core.specs.PlainCore.{PlainCore};
ghost use Rattle.sp_machine.specs.Transfers.{Delays};
ghost use Rattle.sp_plan.specs.PlainPlan.{PlainPlan};
ghost use Rattle.std.specs.Prelude.{ℕ};

use crate::inside::timelines_stay_inside;
use crate::own::own_plans_share_no_port;
use sp_brisk::chosen_plans_keep_to_limit;
use sp_core_ports::ports_are_there;
use sp_plans::chosen_plans_are_valid;

/// By the plan that is chosen for a core's own forms and meets, in each run of the core from an input that fits: each moment finds
/// in its own cycle what it finds in the order of the text, no port of a bank or a FIFO is used twice in one cycle, other than
/// as one tap, ports and elements are there, and the run ends within the limit of the turns that it goes around.
pub fn chosen_plans_run()
    ensures { (core : PlainCore) (plan : PlainPlan) (delays : Delays) (delay : ℕ) → ChosenPlansRun core plan delays delay }
{
    chosen_plans_are_valid();
    own_plans_share_no_port();
    ports_are_there();
    timelines_stay_inside();
    chosen_plans_keep_to_limit();
}
