//! A law of plans for a core's own forms and meets.

ghost use Rattle.sp_core.specs.PlainCore.{PlainCore};
ghost use Rattle.sp_machine.specs.Transfers.{Delays};
ghost use Rattle.sp_chosen_runs.specs.OwnLaws.{OwnPlansShareNoPort};
ghost use Rattle.sp_plan.specs.PlainPlan.{PlainPlan};

use crate::plans::own_plans_are_sound;
use sp_core_ports::{
    cores_use_no_port_twice, ordered_use_no_end_twice, reads_have_duplicates, runs_have_copies,
};
use sp_meets_hold::meets_hold;
use sp_overlap::planned_runs_come_in_order;

/// By a plan that is valid for a core's own forms and meets, in each run of the core each moment finds in its own cycle what it
/// finds in the order of the text, and no port of a bank or a FIFO is used twice in one cycle, other than as one tap, whatever
/// the delays of transfers are.
pub fn own_plans_share_no_port()
    ensures { (core : PlainCore) (plan : PlainPlan) (delays : Delays) → OwnPlansShareNoPort core plan delays }
{
    own_plans_are_sound();
    meets_hold();
    runs_have_copies();
    reads_have_duplicates();
    cores_use_no_port_twice();
    planned_runs_come_in_order();
    ordered_use_no_end_twice();
}
