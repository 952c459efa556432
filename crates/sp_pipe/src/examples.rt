//! A worked body.
ghost use Rattle.std.specs.Prelude.{[], IfOk, OnOk};
ghost use Rattle.sp_gates.specs.Grows.{Fills};
ghost use Rattle.sp_gates.specs.Nets.{HasNet};
ghost use Rattle.sp_pipe.specs.Examples.{GivesSeven, PutsSeven, IsPut, IsSeven};

use crate::emitting::emit;
use crate::listed::emit_list;
use crate::part::{Act, Part, PipeOp};
use sp_netlist::{Builder, Ends, NetId, NoMemory};
use sp_words::Ty;
use std::alloc::Global;

/// The word 7, which is there at once.
fn seven(alloc: Global) -> PipeOp
    ensures { IsSeven result }
{
    PipeOp {
        act: Act::Word(7),
        ty: Ty::int(),
        args: Vec::new(alloc),
        mask: None,
        time: 0,
    }
}

/// The first operation's word is put into a queue, a cycle after the issue.
fn put(alloc: Global) -> Result<PipeOp, NoMemory>
    ensures { IfOk result (λ op. IsPut op) }
{
    let args = vec![in alloc; 0]?;
    Ok(PipeOp {
        act: Act::Enq,
        ty: Ty::int(),
        args,
        mask: None,
        time: 1,
    })
}

/// A body of two operations without counters: two cycles after its start it puts 7, and in no other cycle.
pub fn worked_body(alloc: Global, builder: &mut Builder, start: NetId) -> Result<Ends, NoMemory>
    requires { HasNet builder.old start 1 }
    ensures fills { OnOk result (Fills builder.old builder.new []) }
    ensures puts { IfOk result (λ ends. PutsSeven builder.new start ends.nets.items) }
{
    let first = seven(alloc);
    let second = put(alloc)?;
    let ops = vec![in alloc; first, second]?;
    let part = Part {
        start,
        groups: None,
        ops,
        ii: 1,
        latency: 2,
    };
    let ends = emit(alloc, builder, &part)?;
    Ok(ends)
}

/// A list of one operation, whose word is 7 in each cycle.
pub fn worked_list(alloc: Global, builder: &mut Builder, issue: NetId) -> Result<NetId, NoMemory>
    requires { HasNet builder.old issue 1 }
    ensures fills { OnOk result (Fills builder.old builder.new []) }
    ensures seven { IfOk result (λ net. GivesSeven builder.new net) }
{
    let first = seven(alloc);
    let ops = vec![in alloc; first]?;
    let list = emit_list(alloc, builder, issue, &ops, 0, 32, 0)?;
    Ok(list.word)
}
