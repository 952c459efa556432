//! Where the forms of each operation stand among those of all accesses.

ghost use Rattle.std.specs.Prelude.{◌≡◌, ◌++◌, [], ◌∷◌, map, IfOk, OnOk};
ghost use Rattle.sp_core.specs.CoreParts.{plain_core};
ghost use Rattle.sp_core.specs.Numbered.{list_numbers, counters_numbers, spans_numbers, numbers, access_number};
ghost use Rattle.sp_core.specs.OperationRules.{is_access};
ghost use Rattle.sp_core.specs.Plain.{plain_op, plain_counter, plain_span, plain_node};
ghost use Rattle.sp_schemes.specs.Places.{marks, counts_from, places_of};

use crate::NoMemory;
use sp_core::{Core, CoreCounter, CoreSpan, Node, Op, OpKind};
use std::alloc::Global;

fn is_access(kind: OpKind) -> bool
    ensures { result ≡ is_access kind }
{
    match kind {
        OpKind::Read => true,
        OpKind::Write => true,
        OpKind::Enq => true,
        OpKind::Deq => true,
        OpKind::Reset => true,
        _ => false,
    }
}

/// Appends for each operation whether it has forms.
fn push_ops(into: &mut Vec<bool>, ops: &[Op]) -> Result<(), NoMemory>
    ensures { OnOk result (into.new.items ≡ into.old.items ++ marks (list_numbers (map plain_op ops.now))) }
{
    for op in ops {
        into.push(is_access(op.kind))?;
    }
    Ok(())
}

fn push_counters(into: &mut Vec<bool>, counters: &[CoreCounter]) -> Result<(), NoMemory>
    ensures { OnOk result (into.new.items ≡ into.old.items ++ marks (counters_numbers (map plain_counter counters.now))) }
{
    for counter in counters {
        push_ops(into, &counter.from)?;
        push_ops(into, &counter.until)?;
    }
    Ok(())
}

fn push_span(into: &mut Vec<bool>, span: &CoreSpan) -> Result<(), NoMemory>
    ensures { OnOk result (into.new.items ≡ into.old.items ++ marks (spans_numbers (plain_span span.now ∷ []))) }
{
    match span {
        CoreSpan::One(ops) => push_ops(into, ops),
        CoreSpan::Range(from, until) => {
            push_ops(into, from)?;
            push_ops(into, until)?;
            Ok(())
        }
    }
}

fn push_spans(into: &mut Vec<bool>, spans: &[CoreSpan]) -> Result<(), NoMemory>
    ensures { OnOk result (into.new.items ≡ into.old.items ++ marks (spans_numbers (map plain_span spans.now))) }
{
    for span in spans {
        push_span(into, span)?;
    }
    Ok(())
}

/// Appends those of a part, in preorder.
fn push_node(into: &mut Vec<bool>, node: &Node) -> Result<(), NoMemory>
    ensures { OnOk result (into.new.items ≡ into.old.items ++ marks (numbers (plain_node node.now))) }
{
    match node {
        Node::Inner { counters, ops, .. } => {
            push_counters(into, counters)?;
            push_ops(into, ops)?;
            Ok(())
        }
        Node::Outer {
            counters,
            stages,
            ..
        } => {
            push_counters(into, counters)?;
            for stage in stages {
                push_node(into, &stage.node)?;
            }
            Ok(())
        }
        Node::Fsm {
            start,
            test,
            body,
            next,
            ..
        } => {
            push_ops(into, start)?;
            push_ops(into, test)?;
            push_node(into, body)?;
            push_ops(into, next)?;
            Ok(())
        }
        Node::Branch { test, yes, no } => {
            push_ops(into, test)?;
            push_node(into, yes)?;
            push_node(into, no)?;
            Ok(())
        }
        Node::Load { span, .. } => {
            push_spans(into, span)?;
            into.push(true)?;
            Ok(())
        }
        Node::Store { span, .. } => {
            push_spans(into, span)?;
            into.push(true)?;
            Ok(())
        }
        Node::Sparse { span, count, .. } => {
            push_spans(into, span)?;
            push_ops(into, count)?;
            into.push(true)?;
            Ok(())
        }
    }
}

/// For each mark how many are set before it, and how many are set.
fn counts(alloc: Global, marks: &[bool]) -> Result<Vec<usize>, NoMemory>
    ensures { IfOk result (λ counts. counts.items ≡ counts_from 0 marks.now) }
{
    let mut counts = Vec::new(alloc);
    let mut count = 0;
    for mark in marks {
        counts.push(count)?;
        if *mark {
            count += 1;
        }
    }
    counts.push(count)?;
    Ok(counts)
}

/// For each operation and transfer of a core, by number, how many accesses stand before it, which is where its forms stand
/// among those of all accesses; and last how many there are.
pub fn places(alloc: Global, core: &Core) -> Result<Vec<usize>, NoMemory>
    ensures { IfOk result (λ places. places.items ≡ places_of (plain_core core.now)) }
{
    let mut marks = Vec::new(alloc);
    push_node(&mut marks, core.root())?;
    counts(alloc, &marks)
}

/// How many accesses stand before a number; past the last one, all.
pub(crate) fn place_of(core: &Core, places: &[usize], n: usize) -> usize
    requires { places.now ≡ places_of (plain_core core.now) }
    ensures { result ≡ access_number (plain_core core.now) n }
{
    let _core = core;
    let last = places.len() - 1;
    places[n.min(last)]
}
