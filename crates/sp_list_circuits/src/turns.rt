//! A whole list.
ghost use Rattle.std.specs.Prelude.{◌≡◌, ◌+◌, ◌<◌, ◌^◌, length, IfOk};
ghost use Rattle.sp_words.specs.Types.{width_of};
ghost use Rattle.sp_gates.specs.Nets.{HasNet};
ghost use Rattle.sp_core.specs.CoreParts.{plain_core};
ghost use Rattle.sp_core.specs.Plain.{plain_ops};
ghost use Rattle.sp_op_nets.specs.Acted.{answers_of};
ghost use Rattle.sp_op_nets.specs.Reserved.{Reserves};
ghost use Rattle.sp_list_circuits.specs.Timed.{IsIssuedList};
ghost use Rattle.sp_list_circuits.specs.Turns.{IsWordRight, IsInTurns};

use crate::issue::issue_list;
use crate::timed::timed_ops;
use crate::times::turn_times;
use sp_core::{Core, Op};
use sp_netlist::{Builder, Child, NetId, NoMemory};
use sp_op_nets::{ActedList, AroundNets};
use sp_pipe::emit_list;
use sp_words::Ty;
use std::alloc::Global;

/// The circuit of a list: its start and its end, the net that has its last word where it is over, and its operations.
#[derive(Debug, Drop)]
pub struct Turns {
    pub child: Child,
    pub word: NetId,
    pub acted: ActedList,
}

/// Emits operations that are done one after the other, and give a word of the type. Started in cycle T, the list is issued in
/// cycle T + 1, and is over when all latencies have passed. `number` is that of the first operation.
pub fn emit_turns(
    alloc: Global,
    builder: &mut Builder,
    core: &Core,
    ops: &[Op],
    ty: Ty,
    number: u32,
    around: &[AroundNets],
    start: NetId,
) -> Result<Turns, NoMemory>
    requires right { IsWordRight builder.old (plain_core core.now) around.now (plain_ops ops.now) ty }
    requires numbers { number + length ops.now < 2 ^ 32 }
    requires start { HasNet builder.old start 1 }
    ensures reserves { IfOk result (λ turns. Reserves builder.old builder.new (answers_of turns.acted.ops.items)) }
    ensures start { IfOk result (λ turns. turns.child.start ≡ start) }
    ensures done { IfOk result (λ turns. HasNet builder.new turns.child.done 1) }
    ensures word { IfOk result (λ turns. HasNet builder.new turns.word (width_of ty)) }
    ensures acted { IfOk result (λ turns. IsIssuedList builder.new (plain_core core.now) number (plain_ops ops.now) turns.acted) }
    ensures turns { IfOk result (λ turns. IsInTurns builder.old builder.new (plain_core core.now) around.now number (plain_ops ops.now) turns.child turns.word turns.acted) }
{
    let turns = turn_times(alloc, core, ops)?;
    let placed = timed_ops(alloc, builder, core, ops, &turns.times, around)?;
    let nets = issue_list(builder, start, turns.all)?;
    let last = (ops.len() - 1) as u32;
    let list = emit_list(
        alloc,
        builder,
        nets.issue,
        &placed,
        last,
        ty.width(),
        turns.all,
    )?;
    Ok(Turns {
        child: Child {
            start,
            done: nets.done,
        },
        word: list.word,
        acted: ActedList {
            number,
            ops: placed,
            nets: list.nets,
        },
    })
}
