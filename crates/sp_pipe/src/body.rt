//! The operations of a body, one after the other.
ghost use Rattle.std.specs.Prelude.{◌≡◌, ◌+◌, ◌<◌, ◌≤◌, [], length, take, IfOk, OnOk};
ghost use Rattle.sp_gates.specs.Bits.{IsOne};
ghost use Rattle.sp_gates.specs.Grows.{Fills};
ghost use Rattle.sp_gates.specs.Nets.{HasNet};
ghost use Rattle.sp_pipe.specs.Acts.{AreActs, AreOperands, AreStages, StageAt};
ghost use Rattle.sp_pipe.specs.Right.{IsAt, OpFits, OpsFit};

use crate::access::enable_of;
use crate::kinds::{is_access, time_of};
use crate::masks::under_mask;
use crate::operands::operands_of;
use crate::part::PipeOp;
use crate::words::{Stage, computed};
use sp_netlist::{Builder, NetId, NoMemory};
use std::alloc::Global;

/// Appends the enable of an operation and its operands to the nets, where it is an access.
fn add_access(
    builder: &mut Builder,
    stages: &[Stage],
    ops: &[PipeOp],
    op: &PipeOp,
    operands: &[NetId],
    issue: NetId,
    one: NetId,
    nets: &mut Vec<NetId>,
) -> Result<(), NoMemory>
    requires here { IsAt ops.now (length stages.now) op.now }
    requires fits { OpFits builder.old (take (length stages.now) ops.now) op.now }
    requires stages { AreStages builder.old stages.now ops.now }
    requires operands { AreOperands builder.old ops.now op.now operands.now }
    requires issue { HasNet builder.old issue 1 }
    requires one { IsOne builder.old one }
    requires acts { AreActs builder.old issue ops.now (take (length stages.now) ops.now) nets.old.items }
    ensures fills { OnOk result (Fills builder.old builder.new []) }
    ensures acts { OnOk result (AreActs builder.new issue ops.now (take (length stages.now + 1) ops.now) nets.new.items) }
{
    if is_access(op.act) {
        let enable = enable_of(builder, stages, ops, op, issue, one)?;
        nets.push(enable)?;
        nets.extend_from_slice(operands)?;
        Ok(())
    } else {
        Ok(())
    }
}

/// Emits an operation after those that have these stages; what comes back is its own stage.
fn emit_one(
    alloc: Global,
    builder: &mut Builder,
    stages: &[Stage],
    ops: &[PipeOp],
    op: &PipeOp,
    issue: NetId,
    one: NetId,
    nets: &mut Vec<NetId>,
) -> Result<Stage, NoMemory>
    requires here { IsAt ops.now (length stages.now) op.now }
    requires fits { OpFits builder.old (take (length stages.now) ops.now) op.now }
    requires stages { AreStages builder.old stages.now ops.now }
    requires issue { HasNet builder.old issue 1 }
    requires one { IsOne builder.old one }
    requires acts { AreActs builder.old issue ops.now (take (length stages.now) ops.now) nets.old.items }
    ensures fills { OnOk result (Fills builder.old builder.new []) }
    ensures stage { IfOk result (λ stage. StageAt builder.new stage ops.now (length stages.now)) }
    ensures acts { OnOk result (AreActs builder.new issue ops.now (take (length stages.now + 1) ops.now) nets.new.items) }
{
    let operands = operands_of(alloc, builder, stages, ops, op, one)?;
    add_access(builder, stages, ops, op, &operands, issue, one, nets)?;
    let given = computed(builder, op, &operands, one)?;
    let net = under_mask(builder, stages, ops, op, given, one)?;
    let time = time_of(op);
    Ok(Stage { net, time })
}

/// What emitted operations give: for each access in order its enable and then its operands, and for each operation its stage.
#[derive(Debug, Drop)]
pub struct Operations {
    pub nets: Vec<NetId>,
    pub stages: Vec<Stage>,
}

/// Emits the operations of a body whose groups are issued where `issue` is 1. `one` is always 1.
pub(crate) fn emit_ops(
    alloc: Global,
    builder: &mut Builder,
    issue: NetId,
    ops: &[PipeOp],
    one: NetId,
) -> Result<Operations, NoMemory>
    requires fits { OpsFit builder.old ops.now }
    requires issue { HasNet builder.old issue 1 }
    requires one { IsOne builder.old one }
    ensures fills { OnOk result (Fills builder.old builder.new []) }
    ensures acts { IfOk result (λ r. AreActs builder.new issue ops.now ops.now r.nets.items) }
    ensures each { IfOk result (λ r. length r.stages.items ≡ length ops.now) }
    ensures stages { IfOk result (λ r. AreStages builder.new r.stages.items ops.now) }
{
    let mut stages = Vec::new(alloc);
    let mut nets = Vec::new(alloc);
    for op in ops {
        let stage = emit_one(alloc, builder, &stages, ops, op, issue, one, &mut nets)?;
        stages.push(stage)?;
    }
    Ok(Operations { nets, stages })
}
