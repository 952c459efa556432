//! Laws of what doesn't happen. Each function does nothing: what it ensures is the law.

ghost use Rattle.sp_core.specs.PlainCore.{PlainCore};
ghost use Rattle.sp_machine.specs.Transfers.{Delays};
ghost use Rattle.sp_plan.specs.PlainPlan.{PlainPlan};
ghost use Rattle.sp_stored_cores.specs.Quiet.{CoreEventsAreTimed, NothingBeginsAtOnce, RunsTakeTime};

/// What happens in the run of a whole core is what its timeline tells.
pub fn core_events_are_timed()
    ensures { (core : PlainCore) (plan : PlainPlan) (delays : Delays) → CoreEventsAreTimed core plan delays }
{}

/// In cycle 0, in which it is started, nothing happens in the run of a core whose root has no counters.
pub fn nothing_begins_at_once()
    ensures { (core : PlainCore) (plan : PlainPlan) (delays : Delays) → NothingBeginsAtOnce core plan delays }
{}

/// And it isn't over in that cycle.
pub fn runs_take_time()
    ensures { (core : PlainCore) (plan : PlainPlan) (delays : Delays) → RunsTakeTime core plan delays }
{}
