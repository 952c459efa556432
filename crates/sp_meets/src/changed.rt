//! What is declared or written inside of a node.
ghost use Rattle.std.specs.Prelude.{◌≡◌, ◌++◌, ◌∷◌, [], map, OnOk};
ghost use Rattle.sp_core.specs.Plain.{plain_op, plain_ops, plain_counter, plain_span, plain_node};
ghost use Rattle.sp_patterns.specs.Forms.{is_change};
ghost use Rattle.sp_meets.specs.Around.{named, changed_by, changed_by_bounds, changed_by_spans, changed_in};

use sp_core::{CoreCounter, CoreSpan, Node, Op, OpKind};
use std::alloc::AllocError;

fn is_change(kind: OpKind) -> bool
    ensures { result ≡ is_change kind }
{
    match kind {
        OpKind::Write => true,
        OpKind::Reset => true,
        OpKind::Word(_) => false,
        OpKind::Count(_, _) => false,
        OpKind::Live(_, _, _) => false,
        OpKind::Read => false,
        OpKind::Enq => false,
        OpKind::Deq => false,
        OpKind::One(_) => false,
        OpKind::Two(_) => false,
        OpKind::Shift(_, _) => false,
        OpKind::Mux => false,
        OpKind::Cast(_) => false,
    }
}

fn add_named(mem: Option<u32>, changed: &mut Vec<u32>) -> Result<(), AllocError>
    ensures { OnOk result (changed.new.items ≡ changed.old.items ++ named mem) }
{
    if let Some(m) = mem {
        changed.push(m)?;
    }
    Ok(())
}

fn add_op(op: &Op, changed: &mut Vec<u32>) -> Result<(), AllocError>
    ensures { OnOk result (changed.new.items ≡ changed.old.items ++ changed_by (plain_op op.now ∷ [])) }
{
    if is_change(op.kind) {
        add_named(op.mem, changed)
    } else {
        Ok(())
    }
}

fn add_list(ops: &[Op], changed: &mut Vec<u32>) -> Result<(), AllocError>
    ensures { OnOk result (changed.new.items ≡ changed.old.items ++ changed_by (plain_ops ops.now)) }
{
    let [op, rest @ ..] = ops else {
        return Ok(());
    };
    add_op(op, changed)?;
    add_list(rest, changed)
}

fn add_bounds(counters: &[CoreCounter], changed: &mut Vec<u32>) -> Result<(), AllocError>
    ensures { OnOk result (changed.new.items ≡ changed.old.items ++ changed_by_bounds (map plain_counter counters.now)) }
{
    let [counter, rest @ ..] = counters else {
        return Ok(());
    };
    add_list(&counter.from, changed)?;
    add_list(&counter.until, changed)?;
    add_bounds(rest, changed)
}

fn add_span(span: &CoreSpan, changed: &mut Vec<u32>) -> Result<(), AllocError>
    ensures { OnOk result (changed.new.items ≡ changed.old.items ++ changed_by_spans (plain_span span.now ∷ [])) }
{
    match span {
        CoreSpan::One(ops) => add_list(ops, changed),
        CoreSpan::Range(from, until) => {
            add_list(from, changed)?;
            add_list(until, changed)
        }
    }
}

fn add_spans(spans: &[CoreSpan], changed: &mut Vec<u32>) -> Result<(), AllocError>
    ensures { OnOk result (changed.new.items ≡ changed.old.items ++ changed_by_spans (map plain_span spans.now)) }
{
    let [span, rest @ ..] = spans else {
        return Ok(());
    };
    add_span(span, changed)?;
    add_spans(rest, changed)
}

fn add_numbers(numbers: &[u32], changed: &mut Vec<u32>) -> Result<(), AllocError>
    ensures { OnOk result (changed.new.items ≡ changed.old.items ++ numbers.now) }
{
    changed.extend_from_slice(numbers)?;
    Ok(())
}

/// The memories that a node declares or writes.
pub fn add_changed(node: &Node, changed: &mut Vec<u32>) -> Result<(), AllocError>
    ensures { OnOk result (changed.new.items ≡ changed.old.items ++ changed_in (plain_node node.now)) }
{
    match node {
        Node::Inner {
            counters,
            owned,
            ops,
            ..
        } => {
            add_bounds(counters, changed)?;
            add_numbers(owned, changed)?;
            add_list(ops, changed)
        }
        Node::Outer {
            counters,
            owned,
            stages,
            ..
        } => {
            add_bounds(counters, changed)?;
            add_numbers(owned, changed)?;
            for stage in stages {
                add_changed(&stage.node, changed)?;
            }
            Ok(())
        }
        Node::Fsm {
            start,
            state,
            test,
            body,
            next,
        } => {
            changed.push(*state)?;
            add_list(start, changed)?;
            add_list(test, changed)?;
            add_changed(body, changed)?;
            add_list(next, changed)
        }
        Node::Branch { test, yes, no } => {
            add_list(test, changed)?;
            add_changed(yes, changed)?;
            add_changed(no, changed)
        }
        Node::Load { span, .. } => add_spans(span, changed),
        Node::Store { span, .. } => add_spans(span, changed),
        Node::Sparse { span, count, .. } => {
            add_spans(span, changed)?;
            add_list(count, changed)
        }
    }
}
