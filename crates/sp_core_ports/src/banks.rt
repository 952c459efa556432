//! A law of banks.

ghost use Rattle.sp_core.specs.PlainCore.{PlainCore};
ghost use Rattle.sp_machine.specs.Transfers.{Delays};
ghost use Rattle.sp_plan.specs.PlainPlan.{PlainPlan};
ghost use Rattle.sp_core_ports.specs.BanksLaws.{PortsAreThere};

/// By a valid plan, whose schemes are of those that are searched, each port that a run of a core uses is of a bank, a duplicate
/// and a copy that the plan has.
pub fn ports_are_there()
    ensures { (core : PlainCore) (plan : PlainPlan) (delays : Delays) → PortsAreThere core plan delays }
{}
