//! The operations of a list at their times.
ghost use Rattle.std.specs.Prelude.{◌≡◌, length, IfOk};
ghost use Rattle.sp_core.specs.CoreParts.{plain_core};
ghost use Rattle.sp_core.specs.Plain.{plain_ops};
ghost use Rattle.sp_op_nets.specs.Acted.{answers_of};
ghost use Rattle.sp_op_nets.specs.Reserved.{Reserves};
ghost use Rattle.sp_list_circuits.specs.Timed.{AreRightHere, AreTimed};

use crate::times::latencies;
use sp_circuit_ops::circuit_ops;
use sp_core::{Core, Op};
use sp_netlist::{Builder, NoMemory};
use sp_op_nets::{AroundNets, op_nets};
use sp_pipe::PipeOp;
use std::alloc::Global;

/// The operations of a list, each at its time, and answered after its latency. What answers is reserved.
pub fn timed_ops(
    alloc: Global,
    builder: &mut Builder,
    core: &Core,
    ops: &[Op],
    times: &[u32],
    around: &[AroundNets],
) -> Result<Vec<PipeOp>, NoMemory>
    requires many { length times.now ≡ length ops.now }
    requires right { AreRightHere builder.old (plain_core core.now) around.now (plain_ops ops.now) }
    ensures reserves { IfOk result (λ placed. Reserves builder.old builder.new (answers_of placed.items)) }
    ensures timed { IfOk result (λ placed. AreTimed builder.new (plain_core core.now) around.now ops.now times.now placed.items) }
{
    let afters = latencies(alloc, core, ops)?;
    let nets = op_nets(alloc, builder, ops, around, &afters)?;
    let placed = circuit_ops(alloc, ops, times, &nets)?;
    Ok(placed)
}
