//! How many nodes and operations stand in a part of a core.

ghost use Rattle.std.specs.Prelude.{◌≡◌, ◌≤◌, ◌^◌, [], ◌∷◌, map};
ghost use Rattle.sp_core.specs.Numbering.{node_count, counters_size, spans_size, number_count};
ghost use Rattle.sp_core.specs.Plain.{plain_counter, plain_span, plain_node};

use sp_core::{CoreCounter, CoreSpan, Node};

/// How many nodes there are.
pub fn count_nodes(node: &Node) -> u32
    requires { node_count (plain_node node.now) ≤ 2 ^ 30 }
    ensures { result ≡ node_count (plain_node node.now) }
{
    match node {
        Node::Outer { stages, .. } => {
            let mut total = 1;
            for stage in stages {
                total += count_nodes(&stage.node);
            }
            total
        }
        Node::Fsm { body, .. } => 1 + count_nodes(body),
        Node::Branch { yes, no, .. } => 1 + (count_nodes(yes) + count_nodes(no)),
        _ => 1,
    }
}

/// How many operations the bounds of counters have.
pub fn counters_size(counters: &[CoreCounter]) -> u32
    requires { counters_size (map plain_counter counters.now) ≤ 2 ^ 30 }
    ensures { result ≡ counters_size (map plain_counter counters.now) }
{
    let mut total = 0;
    for counter in counters {
        total += (counter.from.len() + counter.until.len()) as u32;
    }
    total
}

pub(crate) fn span_size(span: &CoreSpan) -> u32
    requires { spans_size (plain_span span.now ∷ []) ≤ 2 ^ 30 }
    ensures { result ≡ spans_size (plain_span span.now ∷ []) }
{
    match span {
        CoreSpan::One(ops) => ops.len() as u32,
        CoreSpan::Range(from, until) => (from.len() + until.len()) as u32,
    }
}

/// How many operations spans have.
pub fn spans_size(spans: &[CoreSpan]) -> u32
    requires { spans_size (map plain_span spans.now) ≤ 2 ^ 30 }
    ensures { result ≡ spans_size (map plain_span spans.now) }
{
    let mut total = 0;
    for span in spans {
        total += span_size(span);
    }
    total
}

/// How many numbers a part takes: one for each operation and for each transfer.
pub fn count_numbers(node: &Node) -> u32
    requires { number_count (plain_node node.now) ≤ 2 ^ 30 }
    ensures { result ≡ number_count (plain_node node.now) }
{
    match node {
        Node::Inner { counters, ops, .. } => counters_size(counters) + ops.len() as u32,
        Node::Outer {
            counters,
            stages,
            ..
        } => {
            let mut total = counters_size(counters);
            for stage in stages {
                total += count_numbers(&stage.node);
            }
            total
        }
        Node::Fsm {
            start,
            test,
            body,
            next,
            ..
        } => (start.len() + test.len()) as u32 + (count_numbers(body) + next.len() as u32),
        Node::Branch { test, yes, no } => {
            test.len() as u32 + (count_numbers(yes) + count_numbers(no))
        }
        Node::Load { span, .. } => spans_size(span) + 1,
        Node::Store { span, .. } => spans_size(span) + 1,
        Node::Sparse { span, count, .. } => spans_size(span) + (count.len() as u32 + 1),
    }
}
