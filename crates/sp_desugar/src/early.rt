//! Words that are computed in stages of their own, and where they are used.
ghost use Rattle.std.specs.Prelude.{◌≡◌, ◌++◌, ◌∷◌, ◌==◌, [], List, ℕ, suc, not, map, length, IfOk, OnOk};
ghost use Rattle.sp_core.specs.Plain as core;
ghost use Rattle.sp_tree.specs.Plain.{plain_expr, plain_kind, plain_mem};
ghost use Rattle.sp_tree.specs.PlainTree.{plain_span, plain_counter};
ghost use Rattle.sp_tree.specs.Tallies.{kind_tally, span_tally};
ghost use Rattle.sp_sugar.specs.Early.{is_early, is_early_slice, after, into_register, from_register, counters_of, spans_from, part_ops, slice_ops, parts_of};
ghost use Rattle.sp_desugar.specs.Crossings.{crosses_of};
ghost use Rattle.sp_operations.specs.Sources.{sources_of};

use crate::NoMemory;
use sp_core::{CoreCounter, CoreSpan, Op};
use sp_operations::{Source, push_code, push_op, read_op, word_list, write_op};
use sp_tree::{Counter, Expr, ExprKind, MemDecl, Span};
use sp_words::Ty;
use std::alloc::{AllocError, Global};

/// Whether a word is a bound or a count, which is computed early where it reads an SRAM or a line buffer, or a part of a
/// slice of which some part does.
#[derive(Clone, Copy, Debug, Drop)]
pub(crate) enum Crossing {
    Bound,
    Part(bool),
}

/// Whether an expression reads an SRAM or a line buffer.
#[cycle(is_early)]
pub(crate) fn is_early(e: &Expr) -> bool
    ensures { result ≡ is_early (plain_expr e.now) }
{
    reads_array(&e.kind)
}

#[cycle(is_early)]
#[tactic(auto, using(crate::proofs::TreeLemmas::plain_get_sram))]
fn reads_array(kind: &ExprKind) -> bool
    ensures { result ≡ (kind_tally (plain_kind kind.now)).arrays }
{
    match kind {
        ExprKind::Lit(_) => false,
        ExprKind::Count(_) => false,
        ExprKind::Val(_) => false,
        ExprKind::GetReg(_) => false,
        ExprKind::GetArg(_) => false,
        ExprKind::GetSram(_, _) => true,
        ExprKind::GetLine(_, _, _) => true,
        ExprKind::Deq(_) => false,
        ExprKind::One(_, a) => is_early(a),
        ExprKind::Two(_, a, b) => is_early(a) || is_early(b),
        ExprKind::Shift(_, a, _) => is_early(a),
        ExprKind::Mux(chosen, a, b) => is_early(chosen) || is_early(a) || is_early(b),
        ExprKind::Cast(a) => is_early(a),
    }
}

/// Whether an expression has an operation.
#[tactic(auto, using(crate::proofs::TreeLemmas::plain_get_sram))]
fn has_operation(kind: &ExprKind) -> bool
    ensures { result ≡ not ((kind_tally (plain_kind kind.now)).operations == 0) }
{
    match kind {
        ExprKind::Lit(_) => false,
        ExprKind::Count(_) => false,
        ExprKind::Val(_) => false,
        ExprKind::GetReg(_) => true,
        ExprKind::GetArg(_) => true,
        ExprKind::GetSram(_, _) => true,
        ExprKind::GetLine(_, _, _) => true,
        ExprKind::Deq(_) => true,
        ExprKind::One(_, _) => true,
        ExprKind::Two(_, _, _) => true,
        ExprKind::Shift(_, _, _) => true,
        ExprKind::Mux(_, _, _) => true,
        ExprKind::Cast(_) => true,
    }
}

fn is_early_span(span: &Span) -> bool
    ensures { result ≡ (span_tally (plain_span span.now)).arrays }
{
    match span {
        Span::One(e) => is_early(e),
        Span::Range(from, until, _) => is_early(from) || is_early(until),
    }
}

/// Whether some part of a slice reads an SRAM or a line buffer.
pub(crate) fn is_early_slice(spans: &[Span]) -> bool
    ensures { result ≡ is_early_slice (map plain_span spans.now) }
{
    for span in spans {
        if is_early_span(span) {
            return true;
        }
    }
    false
}

/// Whether a word is computed early.
pub(crate) fn crosses(crossing: Crossing, e: &Expr) -> bool
    ensures { result ≡ crosses_of crossing (plain_expr e.now) }
{
    match crossing {
        Crossing::Bound => is_early(e),
        Crossing::Part(early) => early && has_operation(&e.kind),
    }
}

/// The first number after that of the register of a word, if it crosses.
pub(crate) fn after(crossing: Crossing, r: u32, e: &Expr) -> Result<u32, NoMemory>
    ensures { IfOk result (λ n. n ≡ after (crosses_of crossing) r (plain_expr e.now)) }
{
    if crosses(crossing, e) {
        return r.checked_add(1).ok_or(AllocError);
    }
    Ok(r)
}

/// Appends the operations of a word, and its write into a register.
pub(crate) fn push_into(
    alloc: Global,
    ops: &mut Vec<Op>,
    mems: &[MemDecl],
    sources: &[Source],
    r: u32,
    e: &Expr,
) -> Result<(), NoMemory>
    ensures { OnOk result (core.plain_ops ops.new.items ≡ core.plain_ops ops.old.items ++ into_register (map plain_mem mems.now) (sources_of sources.now) (length (core.plain_ops ops.old.items)) r (plain_expr e.now)) }
{
    let place = push_code(alloc, ops, mems, sources, e)?;
    let _written = push_op(ops, write_op(Ty::int(), r, vec![in alloc; place]?))?;
    Ok(())
}

/// The operations of a word where it is used.
pub(crate) fn from_register(
    alloc: Global,
    mems: &[MemDecl],
    sources: &[Source],
    crossing: Crossing,
    r: u32,
    e: &Expr,
) -> Result<Vec<Op>, NoMemory>
    ensures { IfOk result (λ ops. core.plain_ops ops.items ≡ from_register (map plain_mem mems.now) (sources_of sources.now) (crosses_of crossing) r (plain_expr e.now)) }
{
    if crosses(crossing, e) {
        let mut ops = Vec::new(alloc);
        let _place = push_op(&mut ops, read_op(Ty::int(), r, Vec::new(alloc)))?;
        return Ok(ops);
    }
    word_list(alloc, mems, sources, e)
}

/// Appends counters, whose early bounds cross in registers from a number on.
pub(crate) fn push_counters(
    alloc: Global,
    out: &mut Vec<CoreCounter>,
    mems: &[MemDecl],
    sources: &[Source],
    r: u32,
    counters: &[Counter],
) -> Result<(), NoMemory>
    ensures { OnOk result (map core.plain_counter out.new.items ≡ map core.plain_counter out.old.items ++ counters_of (map plain_mem mems.now) (sources_of sources.now) r (map plain_counter counters.now)) }
{
    let [counter, rest @ ..] = counters else {
        return Ok(());
    };
    let second = after(Crossing::Bound, r, &counter.from)?;
    out.push(CoreCounter {
        id: counter.id.number(),
        from: from_register(alloc, mems, sources, Crossing::Bound, r, &counter.from)?,
        until: from_register(
            alloc,
            mems,
            sources,
            Crossing::Bound,
            second,
            &counter.until,
        )?,
        by: counter.by,
        par: counter.par,
    })?;
    let next = after(Crossing::Bound, second, &counter.until)?;
    push_counters(alloc, out, mems, sources, next, rest)
}

/// Appends spans, whose early parts cross in registers from a number on.
pub(crate) fn push_spans(
    alloc: Global,
    out: &mut Vec<CoreSpan>,
    mems: &[MemDecl],
    sources: &[Source],
    crossing: Crossing,
    r: u32,
    spans: &[Span],
) -> Result<(), NoMemory>
    ensures { OnOk result (map core.plain_span out.new.items ≡ map core.plain_span out.old.items ++ spans_from (map plain_mem mems.now) (sources_of sources.now) (crosses_of crossing) r (map plain_span spans.now)) }
{
    let [span, rest @ ..] = spans else {
        return Ok(());
    };
    match span {
        Span::One(e) => {
            out.push(CoreSpan::One(from_register(alloc, mems, sources, crossing, r, e)?))?;
            push_spans(
                alloc,
                out,
                mems,
                sources,
                crossing,
                after(crossing, r, e)?,
                rest,
            )
        }
        Span::Range(from, until, _) => {
            let second = after(crossing, r, from)?;
            out.push(CoreSpan::Range(
                from_register(alloc, mems, sources, crossing, r, from)?,
                from_register(alloc, mems, sources, crossing, second, until)?,
            ))?;
            push_spans(
                alloc,
                out,
                mems,
                sources,
                crossing,
                after(crossing, second, until)?,
                rest,
            )
        }
    }
}

/// Appends the operations of a part that crosses, and tells the first number after that of its register.
fn push_part(
    alloc: Global,
    ops: &mut Vec<Op>,
    mems: &[MemDecl],
    sources: &[Source],
    crossing: Crossing,
    r: u32,
    e: &Expr,
) -> Result<u32, NoMemory>
    ensures ops { OnOk result (core.plain_ops ops.new.items ≡ core.plain_ops ops.old.items ++ part_ops (map plain_mem mems.now) (sources_of sources.now) (crosses_of crossing) (length (core.plain_ops ops.old.items)) r (plain_expr e.now)) }
    ensures after { IfOk result (λ n. n ≡ after (crosses_of crossing) r (plain_expr e.now)) }
{
    if crosses(crossing, e) {
        push_into(alloc, ops, mems, sources, r, e)?;
    }
    after(crossing, r, e)
}

/// Appends the operations of all parts of a slice that cross.
pub(crate) fn push_slice(
    alloc: Global,
    ops: &mut Vec<Op>,
    mems: &[MemDecl],
    sources: &[Source],
    crossing: Crossing,
    r: u32,
    spans: &[Span],
) -> Result<(), NoMemory>
    ensures { OnOk result (core.plain_ops ops.new.items ≡ core.plain_ops ops.old.items ++ slice_ops (map plain_mem mems.now) (sources_of sources.now) (crosses_of crossing) (length (core.plain_ops ops.old.items)) r (parts_of (map plain_span spans.now))) }
{
    let [span, rest @ ..] = spans else {
        return Ok(());
    };
    match span {
        Span::One(e) => {
            let next = push_part(alloc, ops, mems, sources, crossing, r, e)?;
            push_slice(alloc, ops, mems, sources, crossing, next, rest)
        }
        Span::Range(from, until, _) => {
            let second = push_part(alloc, ops, mems, sources, crossing, r, from)?;
            let next = push_part(alloc, ops, mems, sources, crossing, second, until)?;
            push_slice(alloc, ops, mems, sources, crossing, next, rest)
        }
    }
}
