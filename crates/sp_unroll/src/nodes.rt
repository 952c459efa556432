//! The tree of a core whose lanes stand one after the other.

ghost use Rattle.std.specs.Prelude.{◌≡◌, map, IfOk, OnOk};
ghost use Rattle.sp_core.specs.Plain.{plain_counter, plain_node, plain_stage_list};
ghost use Rattle.sp_core.specs.PlainCore.{PlainStages};
ghost use Rattle.sp_lanes.specs.Unrolled as plain;
ghost use Rattle.sp_lanes.specs.Unrolled.{stages_in};
ghost use Rattle.sp_unroll.specs.Entries.{within_of};
ghost use Rattle.sp_unroll.specs.Stages.{onto, outer_stages};

use crate::NoMemory;
use crate::combinations::push_combination;
use crate::order::lanes_of;
use crate::parts::{branch_of, fsm_of, inner_of, load_of, outer_of, sparse_of, store_of};
use crate::within::{Within, in_lane, owning};
use sp_core::{CoreCounter, Node, Stage};
use std::alloc::Global;

/// A node where lanes stand one after the other.
#[cycle(nodes)]
pub(crate) fn node_in(
    alloc: Global,
    node: &Node,
    order: &[u32],
    w: &Within,
) -> Result<Node, NoMemory>
    ensures { IfOk result (λ made. plain_node made ≡ plain.node_in order.now (within_of order.now w.now) (plain_node node.now)) }
{
    match node {
        Node::Inner {
            counters,
            owned,
            ops,
            comb,
        } => {
            let made = inner_of(alloc, order, w, counters, owned, ops, *comb)?;
            Ok(made)
        }
        Node::Outer {
            counters,
            style,
            owned,
            stages,
        } => {
            let stages = outer_stages(alloc, stages, order, w, counters, owned)?;
            let made = outer_of(alloc, order, w, counters, *style, owned, stages)?;
            Ok(made)
        }
        Node::Fsm {
            start,
            state,
            test,
            body,
            next,
        } => {
            let inside = owning(alloc, order, &[*state], w)?;
            let body = node_in(alloc, body, order, &inside)?;
            let made = fsm_of(alloc, order, w, &inside, start, *state, test, body, next)?;
            Ok(made)
        }
        Node::Branch { test, yes, no } => {
            let yes = node_in(alloc, yes, order, w)?;
            let no = node_in(alloc, no, order, w)?;
            let made = branch_of(alloc, order, w, test, yes, no)?;
            Ok(made)
        }
        Node::Load { dram, mem, span } => {
            let made = load_of(alloc, order, w, *dram, *mem, span)?;
            Ok(made)
        }
        Node::Store { dram, mem, span } => {
            let made = store_of(alloc, order, w, *dram, *mem, span)?;
            Ok(made)
        }
        Node::Sparse {
            kind,
            dram,
            mem,
            index,
            span,
            count,
            par,
        } => {
            let made = sparse_of(
                alloc, order, w, *kind, *dram, *mem, *index, span, count, *par,
            )?;
            Ok(made)
        }
    }
}

/// The stages of a controller, lane by lane and then the combination; with one lane as they are.
#[cycle(nodes)]
fn outer_stages(
    alloc: Global,
    stages: &[Stage],
    order: &[u32],
    w: &Within,
    counters: &[CoreCounter],
    owned: &[u32],
) -> Result<Vec<Stage>, NoMemory>
    ensures { IfOk result (λ made. plain_stage_list made.items ≡ outer_stages order.now (within_of order.now w.now) (map plain_counter counters.now) owned.now (plain_stage_list stages.now)) }
{
    let lanes = lanes_of(counters);
    if lanes == 1 {
        let inside = in_lane(alloc, order, counters, owned, w, 0)?;
        let all = left_as_they_are(alloc, stages, order, &inside)?;
        return Ok(all);
    }
    let mut out = Vec::new(alloc);
    for lane in 0..lanes {
        let inside = in_lane(alloc, order, counters, owned, w, lane)?;
        push_lane(alloc, stages, order, &inside, lane, &mut out)?;
    }
    push_combination(alloc, order, w, counters, owned, stages, &mut out)?;
    Ok(out)
}

/// The stages of a body with one lane.
#[cycle(nodes)]
fn left_as_they_are(
    alloc: Global,
    stages: &[Stage],
    order: &[u32],
    w: &Within,
) -> Result<Vec<Stage>, NoMemory>
    ensures { IfOk result (λ made. plain_stage_list made.items ≡ plain.left_as_they_are order.now (within_of order.now w.now) (plain_stage_list stages.now)) }
{
    let mut out = Vec::new(alloc);
    for stage in stages {
        let node = node_in(alloc, &stage.node, order, w)?;
        out.push(Stage {
            first: stage.first,
            last: stage.last,
            comb: stage.comb,
            node,
        })?;
    }
    Ok(out)
}

/// Appends the stages of one lane of several, without the combination.
#[cycle(nodes)]
fn push_lane(
    alloc: Global,
    stages: &[Stage],
    order: &[u32],
    w: &Within,
    lane: u32,
    out: &mut Vec<Stage>,
) -> Result<(), NoMemory>
    ensures { OnOk result ((rest : PlainStages) → onto out.new.items rest ≡ onto out.old.items (stages_in lane (plain.nodes_in order.now (within_of order.now w.now) (plain_stage_list stages.now)) rest)) }
{
    for stage in stages {
        if !stage.comb {
            let node = node_in(alloc, &stage.node, order, w)?;
            out.push(Stage {
                first: lane,
                last: lane,
                comb: false,
                node,
            })?;
        }
    }
    Ok(())
}
