//! A walk over the lists of a core's tree, in the order of their numbers.
ghost use Rattle.std.specs.Prelude.{◌≡◌, ℕ, ◌+◌, ◌^◌, nat_lt, Bool, [], ◌∷◌, ◌++◌, length, map, OnOk};
ghost use Rattle.sp_core.specs.Plain.{plain_counter, plain_node, plain_ops, plain_span};
ghost use Rattle.sp_tree_handed.specs.Lists.{bounds_in, lists_in, spans_in};
ghost use Rattle.sp_tree_accesses.specs.Walks.{AddsLists};

use sp_access_nets::{AccessNets, accesses_of};
use sp_core::{CoreCounter, CoreSpan, Node, Op};
use sp_netlist::{NetId, NoMemory};
use sp_op_nets::ActedList;
use std::alloc::Global;

/// The accesses of the lists so far, and which list comes next.
#[derive(Debug, Drop)]
pub(crate) struct Walk {
    pub accesses: Vec<AccessNets>,
    pub at: usize,
}

/// Further accesses, behind those before.
pub fn append(all: &mut Vec<AccessNets>, more: Vec<AccessNets>) -> Result<(), NoMemory>
    ensures { OnOk result (all.new.items ≡ all.old.items ++ more.items) }
{
    for access in more {
        all.push(access)?;
    }
    Ok(())
}

/// Whether the numbers of a list have 32 bits.
fn is_small(ops: &[Op], list: &ActedList) -> bool
    ensures { result ≡ nat_lt (list.now.number + length ops.now) (2 ^ 32) }
{
    u64::from(list.number) + (ops.len() as u64) < 1 << 32
}

/// Adds the accesses of a list by the next one that is handed on.
fn add_list(
    alloc: Global,
    walk: &mut Walk,
    ops: &[Op],
    acted: &[ActedList],
    copies: &[Option<NetId>],
) -> Result<(), NoMemory>
    ensures { OnOk result ((n : ℕ) (at_once : Bool) → AddsLists (record { number = n; ops = plain_ops ops.now; at_once = at_once } ∷ []) copies.now acted.now walk.old walk.new) }
{
    let Some(list) = acted.get(walk.at) else {
        return Ok(());
    };
    if !is_small(ops, list) {
        return Ok(());
    }
    let added = accesses_of(alloc, ops, list, copies)?;
    append(&mut walk.accesses, added)?;
    walk.at += 1;
    Ok(())
}

/// Adds those of the bounds of counters: of each the first bound, and then the other one.
fn add_bounds(
    alloc: Global,
    walk: &mut Walk,
    counters: &[CoreCounter],
    acted: &[ActedList],
    copies: &[Option<NetId>],
) -> Result<(), NoMemory>
    ensures { OnOk result ((n : ℕ) → AddsLists (bounds_in (map plain_counter counters.now) n) copies.now acted.now walk.old walk.new) }
{
    for counter in counters {
        add_list(alloc, walk, &counter.from, acted, copies)?;
        add_list(alloc, walk, &counter.until, acted, copies)?;
    }
    Ok(())
}

/// Adds those of a span.
fn add_span(
    alloc: Global,
    walk: &mut Walk,
    span: &CoreSpan,
    acted: &[ActedList],
    copies: &[Option<NetId>],
) -> Result<(), NoMemory>
    ensures { OnOk result ((n : ℕ) → AddsLists (spans_in (plain_span span.now ∷ []) n) copies.now acted.now walk.old walk.new) }
{
    match span {
        CoreSpan::One(ops) => add_list(alloc, walk, ops, acted, copies),
        CoreSpan::Range(from, until) => {
            add_list(alloc, walk, from, acted, copies)?;
            add_list(alloc, walk, until, acted, copies)
        }
    }
}

/// Adds those of the ends of a slice.
fn add_spans(
    alloc: Global,
    walk: &mut Walk,
    spans: &[CoreSpan],
    acted: &[ActedList],
    copies: &[Option<NetId>],
) -> Result<(), NoMemory>
    ensures { OnOk result ((n : ℕ) → AddsLists (spans_in (map plain_span spans.now) n) copies.now acted.now walk.old walk.new) }
{
    for span in spans {
        add_span(alloc, walk, span, acted, copies)?;
    }
    Ok(())
}

/// Adds those of a node and of all in it.
pub(crate) fn add_node(
    alloc: Global,
    walk: &mut Walk,
    node: &Node,
    acted: &[ActedList],
    copies: &[Option<NetId>],
) -> Result<(), NoMemory>
    ensures { OnOk result ((n : ℕ) → AddsLists (lists_in (plain_node node.now) n) copies.now acted.now walk.old walk.new) }
{
    match node {
        Node::Inner { counters, ops, .. } => {
            add_bounds(alloc, walk, counters, acted, copies)?;
            add_list(alloc, walk, ops, acted, copies)
        }
        Node::Outer {
            counters,
            stages,
            ..
        } => {
            add_bounds(alloc, walk, counters, acted, copies)?;
            for stage in stages {
                add_node(alloc, walk, &stage.node, acted, copies)?;
            }
            Ok(())
        }
        Node::Fsm {
            start,
            test,
            body,
            next,
            ..
        } => {
            add_list(alloc, walk, start, acted, copies)?;
            add_list(alloc, walk, test, acted, copies)?;
            add_node(alloc, walk, body, acted, copies)?;
            add_list(alloc, walk, next, acted, copies)
        }
        Node::Branch { test, yes, no } => {
            add_list(alloc, walk, test, acted, copies)?;
            add_node(alloc, walk, yes, acted, copies)?;
            add_node(alloc, walk, no, acted, copies)
        }
        Node::Load { span, .. } => add_spans(alloc, walk, span, acted, copies),
        Node::Store { span, .. } => add_spans(alloc, walk, span, acted, copies),
        Node::Sparse { span, count, .. } => {
            add_spans(alloc, walk, span, acted, copies)?;
            add_list(alloc, walk, count, acted, copies)
        }
    }
}
