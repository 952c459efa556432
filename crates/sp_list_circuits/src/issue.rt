//! When a list is issued, and when it is over.
ghost use Rattle.std.specs.Prelude.{ℕ, [], IfOk, OnOk};
ghost use Rattle.sp_netlist.specs.Signals.{Signals};
ghost use Rattle.sp_gates.specs.Grows.{Fills};
ghost use Rattle.sp_gates.specs.Nets.{HasNet};
ghost use Rattle.sp_gates.specs.Runs.{RunsOn};
ghost use Rattle.sp_gates.specs.Tested.{is_on};
ghost use Rattle.sp_pipe.specs.Issues.{IssuesOne};

use sp_gates::{delay, one};
use sp_netlist::{Builder, NetId, NoMemory};

/// The net that is 1 where a list is issued, and the one that is 1 where it is over.
#[derive(Clone, Copy, Debug)]
pub(crate) struct Issue {
    pub(crate) issue: NetId,
    pub(crate) done: NetId,
}

/// A list is issued in the cycle after its start, and is over so many cycles later.
pub(crate) fn issue_list(
    builder: &mut Builder,
    start: NetId,
    cycles: u32,
) -> Result<Issue, NoMemory>
    requires { HasNet builder.old start 1 }
    ensures fills { OnOk result (Fills builder.old builder.new []) }
    ensures issue { IfOk result (λ nets. HasNet builder.new nets.issue 1) }
    ensures done { IfOk result (λ nets. HasNet builder.new nets.done 1) }
    ensures issues { IfOk result (λ nets. (s : Signals) → RunsOn s builder.new.cells → IssuesOne (is_on s start) (is_on s nets.issue) (is_on s nets.done) cycles) }
{
    let always = one(builder)?;
    let issue = delay(builder, 1, start, 1, always)?;
    let done = delay(builder, 1, issue, cycles, always)?;
    Ok(Issue { issue, done })
}
