//! The net of a list's word.
ghost use Rattle.std.specs.Prelude.{◌+◌, ◌<◌, ◌^◌, length, IfOk};
ghost use Rattle.sp_core.specs.Plain.{plain_ops};
ghost use Rattle.sp_gates.specs.Nets.{HasNet};
ghost use Rattle.sp_op_nets.specs.Acted.{answers_of};
ghost use Rattle.sp_op_nets.specs.Reserved.{Reserves};
ghost use Rattle.sp_bound_nets.specs.Direct.{AreAtOnce, IsActedList, IsDirect, IsWordRight};

use sp_circuit_ops::circuit_ops;
use sp_core::Op;
use sp_gates::one;
use sp_netlist::{Builder, NetId, NoMemory};
use sp_op_nets::{ActedList, AroundNets, op_nets};
use sp_pipe::{PipeOp, emit_list};
use std::alloc::Global;

/// The net on which a list's word stands in each cycle, and the operations of the list as their circuit has them.
#[derive(Debug, Drop)]
pub struct Direct {
    pub net: NetId,
    pub acted: ActedList,
}

/// The operations of a list, all done where the list is issued, and answered in the cycle itself.
fn ops_at_once(
    alloc: Global,
    builder: &mut Builder,
    ops: &[Op],
    around: &[AroundNets],
) -> Result<Vec<PipeOp>, NoMemory>
    requires { IsWordRight builder.old around.now (plain_ops ops.now) }
    ensures reserves { IfOk result (λ placed. Reserves builder.old builder.new (answers_of placed.items)) }
    ensures placed { IfOk result (λ placed. AreAtOnce builder.new around.now ops.now placed.items) }
{
    let at_once = vec![in alloc; 0; ops.len()]?;
    let nets = op_nets(alloc, builder, ops, around, &at_once)?;
    let placed = circuit_ops(alloc, ops, &at_once, &nets)?;
    Ok(placed)
}

/// Emits a list of operations whose word is an `Int` and stands in the cycle itself: all are done in each cycle, and what they
/// read is to be answered on the reserved nets in the cycle itself. `number` is that of the first operation.
pub fn emit_direct(
    alloc: Global,
    builder: &mut Builder,
    ops: &[Op],
    number: u32,
    around: &[AroundNets],
) -> Result<Direct, NoMemory>
    requires right { IsWordRight builder.old around.now (plain_ops ops.now) }
    requires numbers { number + length ops.now < 2 ^ 32 }
    ensures reserves { IfOk result (λ direct. Reserves builder.old builder.new (answers_of direct.acted.ops.items)) }
    ensures net { IfOk result (λ direct. HasNet builder.new direct.net 32) }
    ensures acted { IfOk result (λ direct. IsActedList builder.new number (plain_ops ops.now) direct.acted) }
    ensures direct { IfOk result (λ direct. IsDirect builder.old builder.new around.now number (plain_ops ops.now) direct.net direct.acted) }
{
    let placed = ops_at_once(alloc, builder, ops, around)?;
    let always = one(builder)?;
    let last = (ops.len() - 1) as u32;
    let list = emit_list(alloc, builder, always, &placed, last, 32, 0)?;
    Ok(Direct {
        net: list.word,
        acted: ActedList {
            number,
            ops: placed,
            nets: list.nets,
        },
    })
}
