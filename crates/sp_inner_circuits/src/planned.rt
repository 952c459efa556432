//! What a plan says of a body.
ghost use Rattle.std.specs.Prelude.{◌≡◌, length, IfOk};
ghost use Rattle.sp_core.specs.CoreParts.{plain_core};
ghost use Rattle.sp_core.specs.Plain.{plain_ops};
ghost use Rattle.sp_machine.specs.Timeline.{times_of};
ghost use Rattle.sp_op_nets.specs.Acted.{answers_of};
ghost use Rattle.sp_op_nets.specs.Reserved.{Reserves};
ghost use Rattle.sp_plan.specs.Plain.{plain_node_plan};
ghost use Rattle.sp_list_circuits.specs.Timed.{AreRightHere, AreTimed};
ghost use Rattle.sp_inner_circuits.specs.Bodies.{IsPartOf};

use sp_core::{Core, Op};
use sp_list_circuits::timed_ops;
use sp_netlist::{Builder, NetId, NoMemory};
use sp_op_nets::AroundNets;
use sp_pipe::{Groups, Part, PipeOp};
use sp_plan::NodePlan;
use std::alloc::Global;

/// The operations of a body at the times of its plan.
pub(crate) fn planned_ops(
    alloc: Global,
    builder: &mut Builder,
    core: &Core,
    plan: &NodePlan,
    ops: &[Op],
    around: &[AroundNets],
) -> Result<Vec<PipeOp>, NoMemory>
    requires many { length (times_of (plain_node_plan plan.now)) ≡ length ops.now }
    requires right { AreRightHere builder.old (plain_core core.now) around.now (plain_ops ops.now) }
    ensures reserves { IfOk result (λ placed. Reserves builder.old builder.new (answers_of placed.items)) }
    ensures timed { IfOk result (λ placed. AreTimed builder.new (plain_core core.now) around.now ops.now (times_of (plain_node_plan plan.now)) placed.items) }
{
    match plan {
        NodePlan::Inner { times, .. } => {
            let placed = timed_ops(alloc, builder, core, ops, times, around)?;
            Ok(placed)
        }
        _ => Err(NoMemory),
    }
}

/// The part of a body, with the interval and the latency of its plan.
pub(crate) fn planned_part(
    plan: &NodePlan,
    start: NetId,
    groups: Option<Groups>,
    ops: Vec<PipeOp>,
) -> Result<Part, NoMemory>
    ensures { IfOk result (IsPartOf (plain_node_plan plan.now) start groups ops.items) }
{
    match plan {
        NodePlan::Inner { ii, latency, .. } => Ok(Part {
            start,
            groups,
            ops,
            ii: *ii,
            latency: *latency,
        }),
        _ => Err(NoMemory),
    }
}
