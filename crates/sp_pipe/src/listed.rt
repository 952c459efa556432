//! A list of operations that gives a word: a bound, an index of a slice, the start, the test or the next state of an FSM.
ghost use Rattle.std.specs.Prelude.{◌≡◌, [], length, IfOk, OnOk};
ghost use Rattle.sp_gates.specs.Grows.{Fills};
ghost use Rattle.sp_gates.specs.Nets.{HasNet};
ghost use Rattle.sp_netlist.specs.Rules.{IsWidth};
ghost use Rattle.sp_pipe.specs.Acts.{AreActs, HasWord};
ghost use Rattle.sp_pipe.specs.Right.{IsTaken, OpsFit};

use crate::body::emit_ops;
use crate::operands::operand;
use crate::part::PipeOp;
use sp_gates::one;
use sp_netlist::{Builder, NetId, NoMemory};
use std::alloc::Global;

/// The circuit of a list: for each access in order its enable and then its operands, and the net of the word that is asked for.
#[derive(Debug, Drop)]
pub struct Listed {
    pub nets: Vec<NetId>,
    pub word: NetId,
}

/// Emits a list of operations that is done in each cycle in which `issue` is 1. The word of the operation at a place stands so
/// many cycles after that. Where all of a list stands at once, as the bounds of a loop do, no register is between the
/// nets that are given, those of counters and registers, and its word.
pub fn emit_list(
    alloc: Global,
    builder: &mut Builder,
    issue: NetId,
    ops: &[PipeOp],
    place: u32,
    width: u8,
    time: u32,
) -> Result<Listed, NoMemory>
    requires fits { OpsFit builder.old ops.now }
    requires issue { HasNet builder.old issue 1 }
    requires width { IsWidth width }
    requires taken { IsTaken ops.now place width time }
    ensures fills { OnOk result (Fills builder.old builder.new []) }
    ensures acts { IfOk result (λ list. AreActs builder.new issue ops.now ops.now list.nets.items) }
    ensures net { IfOk result (λ list. HasNet builder.new list.word width) }
    ensures word { IfOk result (λ list. HasWord builder.new list.word time ops.now place) }
{
    let always = one(builder)?;
    let operations = emit_ops(alloc, builder, issue, ops, always)?;
    let word = operand(builder, &operations.stages, ops, place, width, time, always)?;
    Ok(Listed {
        nets: operations.nets,
        word,
    })
}
