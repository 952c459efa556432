//! How much stands in a core, counted up to a bound.

ghost use Rattle.std.specs.Prelude.{◌≡◌, ◌+◌, [], ◌∷◌, ◌++◌, ◌≤◌, map, min, OnOk};
ghost use Rattle.sp_core.specs.Invariant.{owned_in, is_small};
ghost use Rattle.sp_core.specs.Numbering.{node_count, counters_size, spans_size, operation_count, core_size};
ghost use Rattle.sp_core.specs.PartsPlain.{core_of};
ghost use Rattle.sp_core.specs.Plain.{plain_counter, plain_span, plain_node};

use crate::node::{CoreCounter, CoreSpan, Node};
use crate::parts::Parts;
use std::alloc::AllocError;

/// More than a core may have of nodes, operations, memories and DRAMs together.
const MOST: u64 = 1 << 29;

/// The sum, or `MOST` where it is greater.
fn add_up(a: u64, b: u64) -> u64
    requires a_fits { a ≤ MOST }
    requires b_fits { b ≤ MOST }
    ensures { result ≡ min (a + b) MOST }
{
    (a + b).min(MOST)
}

/// How many nodes there are.
pub(crate) fn count_nodes(node: &Node) -> u64
    ensures { result ≡ min (node_count (plain_node node.now)) MOST }
{
    match node {
        Node::Outer { stages, .. } => {
            let mut total = 1;
            for stage in stages {
                total = add_up(total, count_nodes(&stage.node));
            }
            total
        }
        Node::Fsm { body, .. } => add_up(1, count_nodes(body)),
        Node::Branch { yes, no, .. } => add_up(1, add_up(count_nodes(yes), count_nodes(no))),
        _ => 1,
    }
}

/// A length, or `MOST` where it is greater.
fn length(len: usize) -> u64
    ensures { result ≡ min len MOST }
{
    (len as u64).min(MOST)
}

fn count_counters(counters: &[CoreCounter]) -> u64
    ensures { result ≡ min (counters_size (map plain_counter counters.now)) MOST }
{
    let mut total = 0;
    for counter in counters {
        let bounds = add_up(length(counter.from.len()), length(counter.until.len()));
        total = add_up(total, bounds);
    }
    total
}

fn count_span(span: &CoreSpan) -> u64
    ensures { result ≡ min (spans_size (plain_span span.now ∷ [])) MOST }
{
    match span {
        CoreSpan::One(ops) => length(ops.len()),
        CoreSpan::Range(from, until) => add_up(length(from.len()), length(until.len())),
    }
}

fn count_spans(spans: &[CoreSpan]) -> u64
    ensures { result ≡ min (spans_size (map plain_span spans.now)) MOST }
{
    let mut total = 0;
    for span in spans {
        total = add_up(total, count_span(span));
    }
    total
}

/// How many operations there are.
fn count_operations(node: &Node) -> u64
    ensures { result ≡ min (operation_count (plain_node node.now)) MOST }
{
    match node {
        Node::Inner { counters, ops, .. } => add_up(count_counters(counters), length(ops.len())),
        Node::Outer {
            counters,
            stages,
            ..
        } => {
            let mut total = count_counters(counters);
            for stage in stages {
                total = add_up(total, count_operations(&stage.node));
            }
            total
        }
        Node::Fsm {
            start,
            test,
            body,
            next,
            ..
        } => add_up(
            add_up(length(start.len()), length(test.len())),
            add_up(count_operations(body), length(next.len())),
        ),
        Node::Branch { test, yes, no } => add_up(
            length(test.len()),
            add_up(count_operations(yes), count_operations(no)),
        ),
        Node::Load { span, .. } => count_spans(span),
        Node::Store { span, .. } => count_spans(span),
        Node::Sparse { span, count, .. } => add_up(count_spans(span), length(count.len())),
    }
}

/// Whether all is less than a number may be.
pub(crate) fn is_small(parts: &Parts) -> bool
    ensures { result ≡ is_small (core_of parts.now) }
{
    let tree = add_up(count_nodes(&parts.root), count_operations(&parts.root));
    let declared = add_up(length(parts.mems.len()), length(parts.ports.drams.len()));
    add_up(tree, declared) < MOST
}

/// The memories that the nodes of a part own, in preorder, after those that are there.
pub(crate) fn collect_owned(node: &Node, into: &mut Vec<u32>) -> Result<(), AllocError>
    ensures { OnOk result (into.new.items ≡ into.old.items ++ owned_in (plain_node node.now)) }
{
    match node {
        Node::Inner { owned, .. } => into.extend_from_slice(owned),
        Node::Outer { owned, stages, .. } => {
            into.extend_from_slice(owned)?;
            for stage in stages {
                collect_owned(&stage.node, into)?;
            }
            Ok(())
        }
        Node::Fsm { state, body, .. } => {
            into.push(*state)?;
            collect_owned(body, into)
        }
        Node::Branch { yes, no, .. } => {
            collect_owned(yes, into)?;
            collect_owned(no, into)
        }
        _ => Ok(()),
    }
}
