//! Nodes in lanes, each by the nodes that stand in it.

ghost use Rattle.std.specs.Prelude.{◌≡◌, None, map, IfOk};
ghost use Rattle.std.specs.Option.{option_map};
ghost use Rattle.sp_core.specs.Plain.{plain_counter, plain_ops, plain_node, plain_span, plain_stage_list};
ghost use Rattle.sp_core.specs.PlainCore.{inner, outer, fsm, branch, load, store, sparse};
ghost use Rattle.sp_lanes.specs.Unrolled as plain;
ghost use Rattle.sp_lanes.specs.Unrolled.{inner_ops};
ghost use Rattle.sp_lanes.specs.Within.{ops_in, counters_in, spans_in};
ghost use Rattle.sp_unroll.specs.Entries.{number_in, within_of};

use crate::NoMemory;
use crate::combined::inner_ops;
use crate::order::lanes_of;
use crate::renamed::{counters_in, mem_in, numbers_in, ops_in, spans_in};
use crate::within::{Within, in_lane};
use sp_core::{CoreCounter, CoreSpan, Node, Op, SparseKind, Stage};
use sp_words::Style;
use std::alloc::Global;

/// The memories that a controller owns, lane by lane.
fn owned_in_lanes(
    alloc: Global,
    order: &[u32],
    w: &Within,
    counters: &[CoreCounter],
    owned: &[u32],
) -> Result<Vec<u32>, NoMemory>
    ensures { IfOk result (λ all. all.items ≡ plain.owned_in_lanes order.now (map plain_counter counters.now) owned.now (within_of order.now w.now)) }
{
    let mut all = Vec::new(alloc);
    for lane in 0..lanes_of(counters) {
        let inside = in_lane(alloc, order, counters, owned, w, lane)?;
        let numbers = numbers_in(alloc, order, &inside, owned)?;
        all.extend_from_slice(&numbers)?;
    }
    Ok(all)
}

/// A loop over operations.
pub(crate) fn inner_of(
    alloc: Global,
    order: &[u32],
    w: &Within,
    counters: &[CoreCounter],
    owned: &[u32],
    ops: &[Op],
    comb: Option<u32>,
) -> Result<Node, NoMemory>
    ensures { IfOk result (λ made. plain_node made ≡ inner (counters_in (within_of order.now w.now) (map plain_counter counters.now)) (plain.owned_in_lanes order.now (map plain_counter counters.now) owned.now (within_of order.now w.now)) (inner_ops order.now (within_of order.now w.now) (map plain_counter counters.now) owned.now (plain_ops ops.now) comb) None) }
{
    Ok(Node::Inner {
        counters: counters_in(alloc, order, w, counters)?,
        owned: owned_in_lanes(alloc, order, w, counters, owned)?,
        ops: inner_ops(alloc, order, w, counters, owned, ops, comb)?,
        comb: None,
    })
}

/// A loop over stages.
pub(crate) fn outer_of(
    alloc: Global,
    order: &[u32],
    w: &Within,
    counters: &[CoreCounter],
    style: Style,
    owned: &[u32],
    stages: Vec<Stage>,
) -> Result<Node, NoMemory>
    ensures { IfOk result (λ made. plain_node made ≡ outer (counters_in (within_of order.now w.now) (map plain_counter counters.now)) style (plain.owned_in_lanes order.now (map plain_counter counters.now) owned.now (within_of order.now w.now)) (plain_stage_list stages.items)) }
{
    let counters_made = counters_in(alloc, order, w, counters)?;
    let owned_made = owned_in_lanes(alloc, order, w, counters, owned)?;
    Ok(Node::Outer {
        counters: counters_made,
        style,
        owned: owned_made,
        stages,
    })
}

/// An FSM, by what names stand for outside of it and inside.
pub(crate) fn fsm_of(
    alloc: Global,
    order: &[u32],
    w: &Within,
    inside: &Within,
    start: &[Op],
    state: u32,
    test: &[Op],
    body: Node,
    next: &[Op],
) -> Result<Node, NoMemory>
    ensures { IfOk result (λ made. plain_node made ≡ fsm (ops_in (within_of order.now w.now) (plain_ops start.now)) (number_in order.now inside.now.names.items state) (ops_in (within_of order.now inside.now) (plain_ops test.now)) (plain_node body) (ops_in (within_of order.now inside.now) (plain_ops next.now))) }
{
    let start = ops_in(alloc, order, w, start)?;
    let state = inside.number(order, state)?;
    let test = ops_in(alloc, order, inside, test)?;
    let next = ops_in(alloc, order, inside, next)?;
    Ok(Node::Fsm {
        start,
        state,
        test,
        body: Box::new(alloc, body)?,
        next,
    })
}

/// A choice between two nodes.
pub(crate) fn branch_of(
    alloc: Global,
    order: &[u32],
    w: &Within,
    test: &[Op],
    yes: Node,
    no: Node,
) -> Result<Node, NoMemory>
    ensures { IfOk result (λ made. plain_node made ≡ branch (ops_in (within_of order.now w.now) (plain_ops test.now)) (plain_node yes) (plain_node no)) }
{
    let test = ops_in(alloc, order, w, test)?;
    Ok(Node::Branch {
        test,
        yes: Box::new(alloc, yes)?,
        no: Box::new(alloc, no)?,
    })
}

pub(crate) fn load_of(
    alloc: Global,
    order: &[u32],
    w: &Within,
    dram: u32,
    mem: u32,
    span: &[CoreSpan],
) -> Result<Node, NoMemory>
    ensures { IfOk result (λ made. plain_node made ≡ load dram (number_in order.now w.now.names.items mem) (spans_in (within_of order.now w.now) (map plain_span span.now))) }
{
    Ok(Node::Load {
        dram,
        mem: w.number(order, mem)?,
        span: spans_in(alloc, order, w, span)?,
    })
}

pub(crate) fn store_of(
    alloc: Global,
    order: &[u32],
    w: &Within,
    dram: u32,
    mem: u32,
    span: &[CoreSpan],
) -> Result<Node, NoMemory>
    ensures { IfOk result (λ made. plain_node made ≡ store dram (number_in order.now w.now.names.items mem) (spans_in (within_of order.now w.now) (map plain_span span.now))) }
{
    Ok(Node::Store {
        dram,
        mem: w.number(order, mem)?,
        span: spans_in(alloc, order, w, span)?,
    })
}

pub(crate) fn sparse_of(
    alloc: Global,
    order: &[u32],
    w: &Within,
    kind: SparseKind,
    dram: u32,
    mem: u32,
    index: Option<u32>,
    span: &[CoreSpan],
    count: &[Op],
    par: u32,
) -> Result<Node, NoMemory>
    ensures { IfOk result (λ made. plain_node made ≡ sparse kind dram (number_in order.now w.now.names.items mem) (option_map (number_in order.now w.now.names.items) index) (spans_in (within_of order.now w.now) (map plain_span span.now)) (ops_in (within_of order.now w.now) (plain_ops count.now)) par) }
{
    Ok(Node::Sparse {
        kind,
        dram,
        mem: w.number(order, mem)?,
        index: mem_in(order, w, index)?,
        span: spans_in(alloc, order, w, span)?,
        count: ops_in(alloc, order, w, count)?,
        par,
    })
}
