//! How many accesses stand before a number of a core.

ghost use Rattle.std.specs.Prelude.{◌≡◌, [], ◌∷◌, map};
ghost use Rattle.sp_core.specs.CoreParts.{plain_core};
ghost use Rattle.sp_core.specs.Numbered.{list_numbers, counters_numbers, spans_numbers, numbers, access_number};
ghost use Rattle.sp_core.specs.OperationRules.{is_access};
ghost use Rattle.sp_core.specs.Plain.{plain_op, plain_counter, plain_span, plain_node};
ghost use Rattle.sp_serving.specs.Standing.{past, passed};

use sp_core::{Core, CoreCounter, CoreSpan, Node, Op, OpKind};

/// How many numbers are left to pass, and how many accesses stand before the last one at most: those that were passed and
/// as many as are left.
#[derive(Clone, Copy, Debug)]
pub struct Passing {
    pub left: u32,
    pub most: u32,
}

fn is_access(kind: OpKind) -> bool
    ensures { result ≡ is_access kind }
{
    match kind {
        OpKind::Read => true,
        OpKind::Write => true,
        OpKind::Enq => true,
        OpKind::Deq => true,
        OpKind::Reset => true,
        _ => false,
    }
}

/// Past one number, which has forms or hasn't.
fn past(p: Passing, forms: bool) -> Passing
    ensures { result ≡ past p forms }
{
    if p.left == 0 {
        p
    } else {
        Passing {
            left: p.left - 1,
            most: p.most.saturating_sub(if forms { 0 } else { 1 }),
        }
    }
}

fn past_ops(before: Passing, ops: &[Op]) -> Passing
    ensures { result ≡ passed before (list_numbers (map plain_op ops.now)) }
{
    let mut p = before;
    for op in ops {
        p = past(p, is_access(op.kind));
    }
    p
}

fn past_counters(before: Passing, counters: &[CoreCounter]) -> Passing
    ensures { result ≡ passed before (counters_numbers (map plain_counter counters.now)) }
{
    let mut p = before;
    for counter in counters {
        p = past_ops(past_ops(p, &counter.from), &counter.until);
    }
    p
}

#[tactic(auto, using(crate::proofs::Counting::passed_both))]
fn past_span(before: Passing, span: &CoreSpan) -> Passing
    ensures { result ≡ passed before (spans_numbers (plain_span span.now ∷ [])) }
{
    match span {
        CoreSpan::One(ops) => past_ops(before, ops),
        CoreSpan::Range(from, until) => past_ops(past_ops(before, from), until),
    }
}

fn past_spans(before: Passing, spans: &[CoreSpan]) -> Passing
    ensures { result ≡ passed before (spans_numbers (map plain_span spans.now)) }
{
    let mut p = before;
    for span in spans {
        p = past_span(p, span);
    }
    p
}

/// Past all numbers of a part.
#[tactic(auto, using(crate::proofs::Counting::passed_both))]
fn past_node(before: Passing, node: &Node) -> Passing
    ensures { result ≡ passed before (numbers (plain_node node.now)) }
{
    match node {
        Node::Inner { counters, ops, .. } => past_ops(past_counters(before, counters), ops),
        Node::Outer {
            counters,
            stages,
            ..
        } => {
            let mut p = past_counters(before, counters);
            for stage in stages {
                p = past_node(p, &stage.node);
            }
            p
        }
        Node::Fsm {
            start,
            test,
            body,
            next,
            ..
        } => past_ops(
            past_node(past_ops(past_ops(before, start), test), body),
            next,
        ),
        Node::Branch { test, yes, no } => past_node(past_node(past_ops(before, test), yes), no),
        Node::Load { span, .. } => past(past_spans(before, span), true),
        Node::Store { span, .. } => past(past_spans(before, span), true),
        Node::Sparse { span, count, .. } => {
            past(past_ops(past_spans(before, span), count), true)
        }
    }
}

/// How many accesses and transfers stand before a number; past the last one, all.
pub(crate) fn access_number(core: &Core, n: u32) -> u32
    ensures { result ≡ access_number (plain_core core.now) n }
{
    let p = past_node(Passing { left: n, most: n }, core.root());
    p.most.saturating_sub(p.left)
}
