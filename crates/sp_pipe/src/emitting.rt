//! A whole inner body.
ghost use Rattle.std.specs.Prelude.{◌≡◌, IfOk, OnOk};
ghost use Rattle.sp_gates.specs.Grows.{Fills};
ghost use Rattle.sp_pipe.specs.Emitted.{IsEmitted, PartFits, driven_of};

use crate::body::emit_ops;
use crate::issue::issue_groups;
use crate::part::Part;
use sp_gates::one;
use sp_netlist::{Builder, Ends, NoMemory};
use std::alloc::Global;

/// Emits an inner body. Started in cycle T it issues group k in cycle T + 1 + k · ii, and an operation acts so many cycles
/// after as its time says. It is done where its last operation is over. The nets of its ends are, for each access in order,
/// its enable and then its operands as they stand where it acts.
pub fn emit(alloc: Global, builder: &mut Builder, part: &Part) -> Result<Ends, NoMemory>
    requires { PartFits builder.old part.now }
    ensures fills { OnOk result (Fills builder.old builder.new (driven_of part.now.groups)) }
    ensures start { IfOk result (λ ends. ends.start ≡ part.now.start) }
    ensures emitted { IfOk result (λ ends. IsEmitted builder.new part.now ends.done ends.nets.items) }
{
    let always = one(builder)?;
    let issue = issue_groups(
        builder,
        part.start,
        part.groups,
        part.ii,
        part.latency,
        always,
    )?;
    let operations = emit_ops(alloc, builder, issue.issue, &part.ops, always)?;
    Ok(Ends {
        start: part.start,
        done: issue.done,
        nets: operations.nets,
    })
}
