//! A worked circuit.

ghost use Rattle.std.specs.Prelude.{[], IfOk, OnOk};
ghost use Rattle.sp_gates.specs.Grows.{Fills};
ghost use Rattle.sp_gates.specs.Nets.{HasNet};
ghost use Rattle.sp_tree_circuits.specs.Worked.{HasBody, IsWord, IsWrite};

use sp_netlist::{Builder, Child, NetId, NoMemory};
use sp_pipe::{Act, Part, PipeOp, emit};
use sp_words::Ty;
use std::alloc::Global;

/// The word 1, which is there at once.
fn word(alloc: Global) -> PipeOp
    ensures { IsWord result }
{
    PipeOp {
        act: Act::Word(1),
        ty: Ty::int(),
        args: Vec::new(alloc),
        mask: None,
        time: 0,
    }
}

/// The first operation's word is written in the cycle of the issue.
fn write(alloc: Global) -> Result<PipeOp, NoMemory>
    ensures { IfOk result (λ op. IsWrite op) }
{
    let args = vec![in alloc; 0]?;
    Ok(PipeOp {
        act: Act::Write,
        ty: Ty::int(),
        args,
        mask: None,
        time: 0,
    })
}

/// Emits a body of two operations without counters, which is the circuit of its node.
pub fn worked_circuit(alloc: Global, builder: &mut Builder, start: NetId) -> Result<Child, NoMemory>
    requires { HasNet builder.old start 1 }
    ensures fills { OnOk result (Fills builder.old builder.new []) }
    ensures circuit { IfOk result (λ child. HasBody builder.new child) }
{
    let first = word(alloc);
    let second = write(alloc)?;
    let ops = vec![in alloc; first, second]?;
    let part = Part {
        start,
        groups: None,
        ops,
        ii: 1,
        latency: 1,
    };
    let ends = emit(alloc, builder, &part)?;
    Ok(Child {
        start: ends.start,
        done: ends.done,
    })
}
