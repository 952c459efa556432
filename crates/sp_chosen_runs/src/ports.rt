//! Laws of ports in runs. Each function does nothing: what it ensures is the law.

ghost use Rattle.sp_core.specs.PlainCore.{PlainCore};
ghost use Rattle.sp_machine.specs.Transfers.{Delays};
ghost use Rattle.sp_plan.specs.PlainPlan.{PlainPlan};
ghost use Rattle.sp_chosen_runs.specs.PortsLaws.{HistoriesShareNoPort, RunsShareNoPort};

use sp_forms_hold::cores_keep_symbols;

/// By a valid plan no run of an inner body that is at its forms shares a port of a bank, whatever the delays of transfers
/// are.
pub fn histories_share_no_port()
    ensures { (core : PlainCore) (plan : PlainPlan) (delays : Delays) → HistoriesShareNoPort core plan delays }
{}

/// Nor does one in a run of a core, whose accesses are at their forms.
pub fn runs_share_no_port()
    ensures { (core : PlainCore) (plan : PlainPlan) (delays : Delays) → RunsShareNoPort core plan delays }
{
    cores_keep_symbols();
    histories_share_no_port();
}
