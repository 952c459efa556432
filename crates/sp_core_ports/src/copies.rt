//! Laws of copies.

ghost use Rattle.sp_core.specs.PlainCore.{PlainCore};
ghost use Rattle.sp_machine.specs.Transfers.{Delays};
ghost use Rattle.sp_plan.specs.PlainPlan.{PlainPlan};
ghost use Rattle.sp_core_ports.specs.CopiesLaws.{PlansHaveCopies, RunsHaveCopies};

/// By a valid plan all that happens in a run of a core to a memory on the chip is done to a copy that the plan has of it.
pub fn runs_have_copies()
    ensures { (core : PlainCore) (plan : PlainPlan) (delays : Delays) → RunsHaveCopies core plan delays }
{}

/// By a valid plan each memory has a copy, and each memory with banks a duplicate.
pub fn plans_have_copies()
    ensures { (core : PlainCore) (plan : PlainPlan) → PlansHaveCopies core plan }
{}
