//! A whole inner body.
ghost use Rattle.std.specs.Prelude.{◌≡◌, ◌+◌, ◌<◌, ◌≤◌, ◌^◌, [], map, length, IfOk};
ghost use Rattle.sp_gates.specs.Nets.{HasNet};
ghost use Rattle.sp_core.specs.CoreParts.{plain_core};
ghost use Rattle.sp_core.specs.Numbering.{counters_size};
ghost use Rattle.sp_core.specs.Plain.{plain_counter, plain_ops};
ghost use Rattle.sp_op_nets.specs.Acted.{answers_in};
ghost use Rattle.sp_op_nets.specs.Reserved.{Reserves};
ghost use Rattle.sp_plan.specs.Plain.{plain_node_plan};
ghost use Rattle.sp_inner_circuits.specs.Inner.{IsInnerActed, IsPlanned, IsInnerRight, IsInner};

use crate::body::emit_body;
use crate::counting::count_groups;
use crate::planned::{planned_ops, planned_part};
use sp_core::{Core, CoreCounter, Op};
use sp_netlist::{Builder, Child, NetId, NoMemory};
use sp_op_nets::{ActedList, AroundNets};
use sp_plan::{NodePlan, counters_size};
use std::alloc::Global;

/// The circuit of an inner body: its start and its end, and the operations of the bounds of its counters and then its own.
#[derive(Debug, Drop)]
pub struct Inner {
    pub child: Child,
    pub acted: Vec<ActedList>,
}

/// A body without counters, which issues one group.
fn emit_single(
    alloc: Global,
    builder: &mut Builder,
    core: &Core,
    plan: &NodePlan,
    ops: &[Op],
    number: u32,
    around: &[AroundNets],
    start: NetId,
) -> Result<Inner, NoMemory>
    requires right { IsInnerRight builder.old (plain_core core.now) around.now [] (plain_ops ops.now) }
    requires planned { IsPlanned (plain_core core.now) (plain_ops ops.now) (plain_node_plan plan.now) }
    requires start { HasNet builder.old start 1 }
    ensures reserves { IfOk result (λ inner. Reserves builder.old builder.new (answers_in inner.acted.items)) }
    ensures start { IfOk result (λ inner. inner.child.start ≡ start) }
    ensures done { IfOk result (λ inner. HasNet builder.new inner.child.done 1) }
    ensures acted { IfOk result (λ inner. IsInnerActed builder.new (plain_core core.now) number [] (plain_ops ops.now) inner.acted.items) }
    ensures inner { IfOk result (λ inner. IsInner builder.old builder.new (plain_core core.now) around.now (plain_node_plan plan.now) number [] (plain_ops ops.now) inner.child inner.acted.items) }
{
    let placed = planned_ops(alloc, builder, core, plan, ops, around)?;
    let part = planned_part(plan, start, None, placed)?;
    let body = emit_body(alloc, builder, part, number)?;
    let mut acted = Vec::new(alloc);
    acted.push(body.acted)?;
    Ok(Inner {
        child: body.child,
        acted,
    })
}

/// A body under counters, which issues a group for each of their steps.
fn emit_counted(
    alloc: Global,
    builder: &mut Builder,
    core: &Core,
    plan: &NodePlan,
    counters: &[CoreCounter],
    ops: &[Op],
    number: u32,
    around: &[AroundNets],
    start: NetId,
) -> Result<Inner, NoMemory>
    requires some { 1 ≤ length counters.now }
    requires right { IsInnerRight builder.old (plain_core core.now) around.now (map plain_counter counters.now) (plain_ops ops.now) }
    requires planned { IsPlanned (plain_core core.now) (plain_ops ops.now) (plain_node_plan plan.now) }
    requires numbers { number + (counters_size (map plain_counter counters.now) + length ops.now) < 2 ^ 30 }
    requires start { HasNet builder.old start 1 }
    ensures reserves { IfOk result (λ inner. Reserves builder.old builder.new (answers_in inner.acted.items)) }
    ensures start { IfOk result (λ inner. inner.child.start ≡ start) }
    ensures done { IfOk result (λ inner. HasNet builder.new inner.child.done 1) }
    ensures acted { IfOk result (λ inner. IsInnerActed builder.new (plain_core core.now) number (map plain_counter counters.now) (plain_ops ops.now) inner.acted.items) }
    ensures inner { IfOk result (λ inner. IsInner builder.old builder.new (plain_core core.now) around.now (plain_node_plan plan.now) number (map plain_counter counters.now) (plain_ops ops.now) inner.child inner.acted.items) }
{
    let next = number + counters_size(counters);
    let counting = count_groups(alloc, builder, counters, number, around, start)?;
    let placed = planned_ops(alloc, builder, core, plan, ops, &counting.inside)?;
    let part = planned_part(plan, start, Some(counting.groups), placed)?;
    let body = emit_body(alloc, builder, part, next)?;
    let mut acted = counting.acted;
    acted.push(body.acted)?;
    Ok(Inner {
        child: body.child,
        acted,
    })
}

/// Emits an inner body by its plan. Started in cycle T, it issues its first group in cycle T + 1. `number` is that of the first
/// operation of the bounds of its counters, behind which its own come.
pub fn emit_inner(
    alloc: Global,
    builder: &mut Builder,
    core: &Core,
    plan: &NodePlan,
    counters: &[CoreCounter],
    ops: &[Op],
    number: u32,
    around: &[AroundNets],
    start: NetId,
) -> Result<Inner, NoMemory>
    requires right { IsInnerRight builder.old (plain_core core.now) around.now (map plain_counter counters.now) (plain_ops ops.now) }
    requires planned { IsPlanned (plain_core core.now) (plain_ops ops.now) (plain_node_plan plan.now) }
    requires numbers { number + (counters_size (map plain_counter counters.now) + length ops.now) < 2 ^ 30 }
    requires start { HasNet builder.old start 1 }
    ensures reserves { IfOk result (λ inner. Reserves builder.old builder.new (answers_in inner.acted.items)) }
    ensures start { IfOk result (λ inner. inner.child.start ≡ start) }
    ensures done { IfOk result (λ inner. HasNet builder.new inner.child.done 1) }
    ensures acted { IfOk result (λ inner. IsInnerActed builder.new (plain_core core.now) number (map plain_counter counters.now) (plain_ops ops.now) inner.acted.items) }
    ensures inner { IfOk result (λ inner. IsInner builder.old builder.new (plain_core core.now) around.now (plain_node_plan plan.now) number (map plain_counter counters.now) (plain_ops ops.now) inner.child inner.acted.items) }
{
    if counters.is_empty() {
        let inner = emit_single(alloc, builder, core, plan, ops, number, around, start)?;
        return Ok(inner);
    }
    let inner = emit_counted(
        alloc, builder, core, plan, counters, ops, number, around, start,
    )?;
    Ok(inner)
}
