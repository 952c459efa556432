//! The law of runs that begin later. The function does nothing: what it ensures is the law.

ghost use Rattle.sp_core.specs.PlainCore.{PlainCore};
ghost use Rattle.sp_machine.specs.Transfers.{Delays};
ghost use Rattle.sp_plan.specs.PlainPlan.{PlainPlan};
ghost use Rattle.sp_begun_later.specs.Later.{RunsBeginLater};

/// What happens in a run of a core from a cycle on is what happens in the one from cycle 0 on, so many cycles later: circuits may
/// follow it just as well, and it leaves the same.
pub fn runs_begin_later()
    ensures { (core : PlainCore) (plan : PlainPlan) (delays : Delays) → RunsBeginLater core plan delays }
{}
