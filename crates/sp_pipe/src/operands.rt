//! The words that operations take.
ghost use Rattle.std.specs.Prelude.{◌≡◌, ◌≤◌, [], length, take, IfOk, OnOk};
ghost use Rattle.sp_gates.specs.Bits.{IsOne};
ghost use Rattle.sp_gates.specs.Grows.{Fills};
ghost use Rattle.sp_gates.specs.Nets.{HasNet};
ghost use Rattle.sp_netlist.specs.Rules.{IsWidth};
ghost use Rattle.sp_pipe.specs.Acts.{AreOperands, AreStages, HasWord};
ghost use Rattle.sp_pipe.specs.Right.{IsTaken, OpFits};

use crate::kinds::taken_width;
use crate::part::PipeOp;
use crate::words::Stage;
use sp_gates::delay;
use sp_netlist::{Builder, NetId, NoMemory};
use std::alloc::Global;

/// A net that has the word of an earlier operation so many cycles after the issue. `one` is always 1.
pub(crate) fn operand(
    builder: &mut Builder,
    stages: &[Stage],
    ops: &[PipeOp],
    place: u32,
    width: u8,
    time: u32,
    one: NetId,
) -> Result<NetId, NoMemory>
    requires width { IsWidth width }
    requires within { length stages.now ≤ length ops.now }
    requires taken { IsTaken (take (length stages.now) ops.now) place width time }
    requires stages { AreStages builder.old stages.now ops.now }
    requires one { IsOne builder.old one }
    ensures fills { OnOk result (Fills builder.old builder.new []) }
    ensures net { IfOk result (λ net. HasNet builder.new net width) }
    ensures word { IfOk result (λ net. HasWord builder.new net time ops.now place) }
{
    let _all = ops;
    let stage = stages[place as usize];
    let late = delay(builder, width, stage.net, time - stage.time, one)?;
    Ok(late)
}

/// The nets of the words that an operation takes, at its time.
pub(crate) fn operands_of(
    alloc: Global,
    builder: &mut Builder,
    stages: &[Stage],
    ops: &[PipeOp],
    op: &PipeOp,
    one: NetId,
) -> Result<Vec<NetId>, NoMemory>
    requires within { length stages.now ≤ length ops.now }
    requires fits { OpFits builder.old (take (length stages.now) ops.now) op.now }
    requires stages { AreStages builder.old stages.now ops.now }
    requires one { IsOne builder.old one }
    ensures fills { OnOk result (Fills builder.old builder.new []) }
    ensures operands { IfOk result (λ nets. AreOperands builder.new ops.now op.now nets.items) }
{
    let mut nets = Vec::new(alloc);
    for i in 0..op.args.len() {
        let width = taken_width(op.act, op.ty, op.args.len(), i);
        let net = operand(builder, stages, ops, op.args[i], width, op.time, one)?;
        nets.push(net)?;
    }
    Ok(nets)
}
