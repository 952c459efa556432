//! The forms of the accesses of a core, in preorder.
ghost use Rattle.std.specs.Prelude.{◌≡◌, ◌≤◌, ◌++◌, ◌∷◌, [], map, length, option_map, IfOk, OnOk};
ghost use Rattle.sp_core.specs.CoreParts.{plain_core};
ghost use Rattle.sp_core.specs.Forms.{plain_forms};
ghost use Rattle.sp_core.specs.Plain.{plain_ops, plain_counter, plain_span, plain_node, plain_mem};
ghost use Rattle.sp_patterns.specs.Indices.{slice_forms, range_lengths, rows_of};
ghost use Rattle.sp_patterns.specs.Patterns.{is_pick, bounds_forms, span_forms, spans_forms, list_forms, sparse_forms, sparse_lengths, node_forms, node_lengths, patterns_of};
ghost use Rattle.sp_patterns.specs.Ranges.{plain_around};

use crate::access::{add_list, add_row};
use crate::around::{Around, inside, nothing_around};
use crate::slice::{add_lengths, bound_form, length_up_to, slice_forms};
use sp_affine::Form;
use sp_core::{AccessForms, Core, CoreCounter, CoreMem, CoreSpan, Node, Op, SparseKind};
use std::alloc::{AllocError, Global};

/// The accesses of the bounds of counters.
fn add_bounds(
    alloc: Global,
    mems: &[CoreMem],
    around: &Around,
    counters: &[CoreCounter],
    rows: &mut Vec<Option<Vec<Form>>>,
) -> Result<(), AllocError>
    requires { length around.now.ranges.items ≤ 1024 }
    ensures { OnOk result (rows_of rows.new.items ≡ rows_of rows.old.items ++ bounds_forms (map plain_mem mems.now) (plain_around around.now) (map plain_counter counters.now)) }
{
    for counter in counters {
        add_list(alloc, mems, around, &counter.from, rows)?;
        add_list(alloc, mems, around, &counter.until, rows)?;
    }
    Ok(())
}

fn add_span(
    alloc: Global,
    mems: &[CoreMem],
    around: &Around,
    span: &CoreSpan,
    rows: &mut Vec<Option<Vec<Form>>>,
) -> Result<(), AllocError>
    requires { length around.now.ranges.items ≤ 1024 }
    ensures { OnOk result (rows_of rows.new.items ≡ rows_of rows.old.items ++ span_forms (map plain_mem mems.now) (plain_around around.now) (plain_span span.now)) }
{
    match span {
        CoreSpan::One(ops) => add_list(alloc, mems, around, ops, rows),
        CoreSpan::Range(from, until) => {
            add_list(alloc, mems, around, from, rows)?;
            add_list(alloc, mems, around, until, rows)
        }
    }
}

/// The accesses of the spans of a slice.
fn add_spans(
    alloc: Global,
    mems: &[CoreMem],
    around: &Around,
    spans: &[CoreSpan],
    rows: &mut Vec<Option<Vec<Form>>>,
) -> Result<(), AllocError>
    requires { length around.now.ranges.items ≤ 1024 }
    ensures { OnOk result (rows_of rows.new.items ≡ rows_of rows.old.items ++ spans_forms (map plain_mem mems.now) (plain_around around.now) (map plain_span spans.now)) }
{
    for span in spans {
        add_span(alloc, mems, around, span, rows)?;
    }
    Ok(())
}

/// A load or a store.
fn add_transfer(
    alloc: Global,
    mems: &[CoreMem],
    around: &Around,
    spans: &[CoreSpan],
    rows: &mut Vec<Option<Vec<Form>>>,
    lengths: &mut Vec<Option<u64>>,
) -> Result<(), AllocError>
    requires { length around.now.ranges.items ≤ 1024 }
    ensures rows { OnOk result (rows_of rows.new.items ≡ rows_of rows.old.items
        ++ (spans_forms (map plain_mem mems.now) (plain_around around.now) (map plain_span spans.now)
        ++ slice_forms (map plain_mem mems.now) (plain_around around.now) (map plain_span spans.now) ∷ [])) }
    ensures lengths { OnOk result (lengths.new.items ≡ lengths.old.items ++ range_lengths (map plain_mem mems.now) (plain_around around.now) (map plain_span spans.now)) }
{
    add_spans(alloc, mems, around, spans, rows)?;
    let row = slice_forms(alloc, mems, around, spans)?;
    add_row(rows, row)?;
    add_lengths(alloc, mems, around, spans, lengths)
}

/// Whether the places of a transfer in its DRAM stand in a memory.
fn is_pick(kind: SparseKind) -> bool
    ensures { result ≡ is_pick kind }
{
    match kind {
        SparseKind::Gather => true,
        SparseKind::Scatter => true,
        SparseKind::WideLoad => false,
        SparseKind::WideStore => false,
    }
}

fn sparse_forms(
    alloc: Global,
    mems: &[CoreMem],
    around: &Around,
    kind: SparseKind,
    spans: &[CoreSpan],
) -> Result<Option<Vec<Form>>, AllocError>
    requires { length around.now.ranges.items ≤ 1024 }
    ensures { IfOk result (λ r. option_map (λ row. row.items) r ≡ sparse_forms (map plain_mem mems.now) (plain_around around.now) kind (map plain_span spans.now)) }
{
    if is_pick(kind) {
        Ok(None)
    } else {
        slice_forms(alloc, mems, around, spans)
    }
}

fn add_sparse_lengths(
    alloc: Global,
    mems: &[CoreMem],
    around: &Around,
    kind: SparseKind,
    spans: &[CoreSpan],
    count: &[Op],
    lengths: &mut Vec<Option<u64>>,
) -> Result<(), AllocError>
    requires { length around.now.ranges.items ≤ 1024 }
    ensures { OnOk result (lengths.new.items ≡ lengths.old.items
        ++ sparse_lengths (map plain_mem mems.now) (plain_around around.now) kind (map plain_span spans.now) (plain_ops count.now)) }
{
    if is_pick(kind) {
        let form = bound_form(alloc, mems, around, count)?;
        lengths.push(length_up_to(form))?;
        Ok(())
    } else {
        add_lengths(alloc, mems, around, spans, lengths)
    }
}

/// A gather, a scatter or a wide transfer: its spans, its count and itself.
fn add_sparse(
    alloc: Global,
    mems: &[CoreMem],
    around: &Around,
    kind: SparseKind,
    spans: &[CoreSpan],
    count: &[Op],
    rows: &mut Vec<Option<Vec<Form>>>,
) -> Result<(), AllocError>
    requires { length around.now.ranges.items ≤ 1024 }
    ensures { OnOk result (rows_of rows.new.items ≡ rows_of rows.old.items
        ++ (spans_forms (map plain_mem mems.now) (plain_around around.now) (map plain_span spans.now)
        ++ (list_forms (map plain_mem mems.now) (plain_around around.now) (plain_ops count.now)
        ++ sparse_forms (map plain_mem mems.now) (plain_around around.now) kind (map plain_span spans.now) ∷ []))) }
{
    add_spans(alloc, mems, around, spans, rows)?;
    add_list(alloc, mems, around, count, rows)?;
    let row = sparse_forms(alloc, mems, around, kind, spans)?;
    add_row(rows, row)
}

fn add_node(
    alloc: Global,
    mems: &[CoreMem],
    around: &Around,
    node: &Node,
    rows: &mut Vec<Option<Vec<Form>>>,
    lengths: &mut Vec<Option<u64>>,
) -> Result<(), AllocError>
    requires { length around.now.ranges.items ≤ 1024 }
    ensures rows { OnOk result (rows_of rows.new.items ≡ rows_of rows.old.items ++ node_forms (map plain_mem mems.now) (plain_around around.now) (plain_node node.now)) }
    ensures lengths { OnOk result (lengths.new.items ≡ lengths.old.items ++ node_lengths (map plain_mem mems.now) (plain_around around.now) (plain_node node.now)) }
{
    match node {
        Node::Inner { counters, ops, .. } => {
            add_bounds(alloc, mems, around, counters, rows)?;
            let within = inside(alloc, mems, around, counters)?;
            add_list(alloc, mems, &within, ops, rows)
        }
        Node::Outer {
            counters,
            stages,
            ..
        } => {
            add_bounds(alloc, mems, around, counters, rows)?;
            let within = inside(alloc, mems, around, counters)?;
            for stage in stages {
                add_node(alloc, mems, &within, &stage.node, rows, lengths)?;
            }
            Ok(())
        }
        Node::Fsm {
            start,
            test,
            body,
            next,
            ..
        } => {
            add_list(alloc, mems, around, start, rows)?;
            add_list(alloc, mems, around, test, rows)?;
            add_node(alloc, mems, around, body, rows, lengths)?;
            add_list(alloc, mems, around, next, rows)
        }
        Node::Branch { test, yes, no } => {
            add_list(alloc, mems, around, test, rows)?;
            add_node(alloc, mems, around, yes, rows, lengths)?;
            add_node(alloc, mems, around, no, rows, lengths)
        }
        Node::Load { span, .. } => add_transfer(alloc, mems, around, span, rows, lengths),
        Node::Store { span, .. } => add_transfer(alloc, mems, around, span, rows, lengths),
        Node::Sparse {
            kind,
            span,
            count,
            ..
        } => {
            add_sparse(alloc, mems, around, *kind, span, count, rows)?;
            add_sparse_lengths(alloc, mems, around, *kind, span, count, lengths)
        }
    }
}

/// The forms of the accesses of a core and the lengths of its ranges, where they are known.
pub fn patterns(alloc: Global, core: &Core) -> Result<AccessForms, AllocError>
    ensures { IfOk result (λ forms. plain_forms forms ≡ patterns_of (plain_core core.now)) }
{
    let around = nothing_around(alloc);
    let mut forms = Vec::new(alloc);
    let mut lengths = Vec::new(alloc);
    add_node(
        alloc,
        core.mems(),
        &around,
        core.root(),
        &mut forms,
        &mut lengths,
    )?;
    Ok(AccessForms { forms, lengths })
}
