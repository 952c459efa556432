//! Which values cross: they are used in another stage than the one that computes them.
ghost use Rattle.std.specs.Prelude.{◌≡◌, ◌||◌, ◌∷◌, [], map, IfOk, OnOk};
ghost use Rattle.sp_tree.specs.PlainStatement.{name};
ghost use Rattle.sp_tree.specs.Plain.{plain_expr, plain_exprs, plain_kind};
ghost use Rattle.sp_tree.specs.PlainTree.{plain_counter, plain_ctl, plain_span, plain_stmt_kind, plain_stmts};
ghost use Rattle.sp_sugar.specs.Uses.{uses, kind_uses, some_use, counters_use, spans_use, is_bare, renamed, are_using, is_using, names_after, ending_uses, is_apart, is_used_later, does_cross};
ghost use Rattle.sp_desugar.specs.Names.{among, plain_ending, is_primitive};

use crate::NoMemory;
use sp_tree::{Counter, Ctl, Expr, ExprKind, Span, Stmt, StmtKind};
use std::alloc::Global;

/// How the stages of a body end: with nothing more, with a word that is computed in the last run of its statements, or
/// with one in the combination, which is a stage of its own.
#[derive(Clone, Copy, Debug)]
pub(crate) enum Ending<'a> {
    NoMore,
    InLastRun(&'a Expr),
    InCombination(&'a Expr),
}

/// Whether a value is among those of these numbers.
#[tactic(auto, unfolding(crate::specs::Names::among))]
fn is_among(v: u32, names: &[u32]) -> bool
    ensures { result ≡ among names.now v }
{
    for name in names {
        if v == *name {
            return true;
        }
    }
    false
}

/// Whether an expression uses such a value.
#[cycle(uses)]
pub(crate) fn uses(names: &[u32], e: &Expr) -> bool
    ensures { result ≡ uses (among names.now) (plain_expr e.now) }
{
    kind_uses(names, &e.kind)
}

#[cycle(uses)]
fn kind_uses(names: &[u32], kind: &ExprKind) -> bool
    ensures { result ≡ kind_uses (among names.now) (plain_kind kind.now) }
{
    match kind {
        ExprKind::Lit(_) => false,
        ExprKind::Count(_) => false,
        ExprKind::Val(v) => is_among(v.number(), names),
        ExprKind::GetReg(_) => false,
        ExprKind::GetArg(_) => false,
        ExprKind::GetSram(_, indices) => some_use(names, indices),
        ExprKind::GetLine(_, row, column) => uses(names, row) || uses(names, column),
        ExprKind::Deq(_) => false,
        ExprKind::One(_, a) => uses(names, a),
        ExprKind::Two(_, a, b) => uses(names, a) || uses(names, b),
        ExprKind::Shift(_, a, _) => uses(names, a),
        ExprKind::Mux(chosen, a, b) => uses(names, chosen) || uses(names, a) || uses(names, b),
        ExprKind::Cast(a) => uses(names, a),
    }
}

#[cycle(uses)]
fn some_use(names: &[u32], all: &[Expr]) -> bool
    ensures { result ≡ some_use (among names.now) (plain_exprs all.now) }
{
    for e in all {
        if uses(names, e) {
            return true;
        }
    }
    false
}

fn counters_use(names: &[u32], counters: &[Counter]) -> bool
    ensures { result ≡ counters_use (among names.now) (map plain_counter counters.now) }
{
    for counter in counters {
        if uses(names, &counter.from) || uses(names, &counter.until) {
            return true;
        }
    }
    false
}

fn span_uses(names: &[u32], span: &Span) -> bool
    ensures { result ≡ spans_use (among names.now) (plain_span span.now ∷ []) }
{
    match span {
        Span::One(e) => uses(names, e),
        Span::Range(from, until, _) => uses(names, from) || uses(names, until),
    }
}

fn spans_use(names: &[u32], spans: &[Span]) -> bool
    ensures { result ≡ spans_use (among names.now) (map plain_span spans.now) }
{
    for span in spans {
        if span_uses(names, span) {
            return true;
        }
    }
    false
}

/// Whether an expression has no operation of its own: its name is the same value.
#[tactic(auto, using(crate::proofs::TreeLemmas::plain_get_sram))]
pub(crate) fn is_bare(e: &Expr) -> bool
    ensures { result ≡ is_bare (plain_expr e.now) }
{
    match &e.kind {
        ExprKind::Lit(_) => true,
        ExprKind::Count(_) => true,
        ExprKind::Val(_) => true,
        ExprKind::GetReg(_) => false,
        ExprKind::GetArg(_) => false,
        ExprKind::GetSram(_, _) => false,
        ExprKind::GetLine(_, _, _) => false,
        ExprKind::Deq(_) => false,
        ExprKind::One(_, _) => false,
        ExprKind::Two(_, _, _) => false,
        ExprKind::Shift(_, _, _) => false,
        ExprKind::Mux(_, _, _) => false,
        ExprKind::Cast(_) => false,
    }
}

/// Adds the value to which a statement gives another name, if it does so.
fn rename(names: &mut Vec<u32>, value: u32, e: &Expr) -> Result<(), NoMemory>
    ensures { OnOk result (among names.new.items ≡ renamed (among names.old.items) (name value (plain_expr e.now))) }
{
    if let ExprKind::Val(v) = &e.kind {
        if is_among(v.number(), names) {
            names.push(value)?;
        }
    }
    Ok(())
}

/// The names after a statement.
fn rename_in(names: &mut Vec<u32>, kind: &StmtKind) -> Result<(), NoMemory>
    ensures { OnOk result (among names.new.items ≡ renamed (among names.old.items) (plain_stmt_kind kind.now)) }
{
    match kind {
        StmtKind::Let(value, e) => rename(names, value.number(), e),
        StmtKind::Declare(_) => Ok(()),
        StmtKind::SetReg(_, _) => Ok(()),
        StmtKind::SetOut(_, _) => Ok(()),
        StmtKind::SetSram(_, _, _) => Ok(()),
        StmtKind::Enq(_, _) => Ok(()),
        StmtKind::LoadSram(_, _, _) => Ok(()),
        StmtKind::LoadLine(_, _, _) => Ok(()),
        StmtKind::Store(_, _, _) => Ok(()),
        StmtKind::Gather(_, _, _, _) => Ok(()),
        StmtKind::Scatter(_, _, _, _) => Ok(()),
        StmtKind::Control(_) => Ok(()),
    }
}

/// The names at the end of a body.
fn names_after(alloc: Global, names: &[u32], body: &[Stmt]) -> Result<Vec<u32>, NoMemory>
    ensures { IfOk result (λ after. among after.items ≡ names_after (among names.now) (plain_stmts body.now)) }
{
    let mut after = Vec::from_slice(alloc, names)?;
    for s in body {
        rename_in(&mut after, &s.kind)?;
    }
    Ok(after)
}

fn either(one: bool, two: bool) -> bool
    ensures { result ≡ (one || two) }
{
    one || two
}

/// Whether statements use such a value.
#[cycle(are_using)]
fn are_using(alloc: Global, names: &[u32], body: &[Stmt]) -> Result<bool, NoMemory>
    ensures { IfOk result (λ is. is ≡ are_using (among names.now) (plain_stmts body.now)) }
{
    let mut now = Vec::from_slice(alloc, names)?;
    for s in body {
        if is_using(alloc, &now, &s.kind)? {
            return Ok(true);
        }
        rename_in(&mut now, &s.kind)?;
    }
    Ok(false)
}

#[cycle(are_using)]
fn is_using(alloc: Global, names: &[u32], kind: &StmtKind) -> Result<bool, NoMemory>
    ensures { IfOk result (λ is. is ≡ is_using (among names.now) (plain_stmt_kind kind.now)) }
{
    match kind {
        StmtKind::Declare(_) => Ok(false),
        StmtKind::Let(_, e) => Ok(!is_bare(e) && uses(names, e)),
        StmtKind::SetReg(_, e) => Ok(uses(names, e)),
        StmtKind::SetOut(_, e) => Ok(uses(names, e)),
        StmtKind::SetSram(_, indices, e) => Ok(some_use(names, indices) || uses(names, e)),
        StmtKind::Enq(_, e) => Ok(uses(names, e)),
        StmtKind::LoadSram(_, _, spans) => Ok(spans_use(names, spans)),
        StmtKind::LoadLine(_, _, spans) => Ok(spans_use(names, spans)),
        StmtKind::Store(_, spans, _) => Ok(spans_use(names, spans)),
        StmtKind::Gather(_, _, _, count) => Ok(uses(names, count)),
        StmtKind::Scatter(_, _, count, _) => Ok(uses(names, count)),
        StmtKind::Control(ctl) => ctl_uses(alloc, names, ctl),
    }
}

#[cycle(are_using)]
fn ctl_uses(alloc: Global, names: &[u32], ctl: &Ctl) -> Result<bool, NoMemory>
    ensures { IfOk result (λ is. is ≡ is_using (among names.now) (plain_ctl ctl.now)) }
{
    match ctl {
        Ctl::Block { body, .. } => are_using(alloc, names, body),
        Ctl::Foreach { counters, body, .. } => {
            let inside = are_using(alloc, names, body)?;
            Ok(either(counters_use(names, counters), inside))
        }
        Ctl::Reduce {
            counters,
            body,
            value,
            ..
        } => {
            let inside = are_using(alloc, names, body)?;
            let after = names_after(alloc, names, body)?;
            let before = either(counters_use(names, counters), inside);
            Ok(either(before, uses(&after, value)))
        }
        Ctl::MemReduce { counters, body, .. } => {
            let inside = are_using(alloc, names, body)?;
            Ok(either(counters_use(names, counters), inside))
        }
        Ctl::Fsm {
            start,
            test,
            body,
            next,
            ..
        } => {
            let inside = are_using(alloc, names, body)?;
            let before = either(uses(names, start), uses(names, test));
            Ok(either(either(before, inside), uses(names, next)))
        }
        Ctl::Branch { test, yes, no } => {
            let first = are_using(alloc, names, yes)?;
            let second = are_using(alloc, names, no)?;
            Ok(either(either(uses(names, test), first), second))
        }
    }
}

fn ending_uses(names: &[u32], ending: Ending<'_>) -> bool
    ensures { result ≡ ending_uses (among names.now) (plain_ending ending.entry) }
{
    match ending {
        Ending::NoMore => false,
        Ending::InLastRun(e) => uses(names, e),
        Ending::InCombination(e) => uses(names, e),
    }
}

fn is_apart(names: &[u32], ending: Ending<'_>) -> bool
    ensures { result ≡ is_apart (among names.now) (plain_ending ending.entry) }
{
    match ending {
        Ending::NoMore => false,
        Ending::InLastRun(_) => false,
        Ending::InCombination(e) => uses(names, e),
    }
}

/// Whether a statement is neither a controller nor a transfer.
#[tactic(auto, using(crate::proofs::UseLemmas::control_is_other))]
pub(crate) fn is_primitive(kind: &StmtKind) -> bool
    ensures { result ≡ is_primitive (plain_stmt_kind kind.now) }
{
    match kind {
        StmtKind::Declare(_) => true,
        StmtKind::Let(_, _) => true,
        StmtKind::SetReg(_, _) => true,
        StmtKind::SetOut(_, _) => true,
        StmtKind::SetSram(_, _, _) => true,
        StmtKind::Enq(_, _) => true,
        StmtKind::LoadSram(_, _, _) => false,
        StmtKind::LoadLine(_, _, _) => false,
        StmtKind::Store(_, _, _) => false,
        StmtKind::Gather(_, _, _, _) => false,
        StmtKind::Scatter(_, _, _, _) => false,
        StmtKind::Control(_) => false,
    }
}

/// Whether a statement that is a controller or a transfer, the rest of its body or its ending uses such a value.
fn use_from(
    alloc: Global,
    names: &[u32],
    kind: &StmtKind,
    rest: &[Stmt],
    ending: Ending<'_>,
) -> Result<bool, NoMemory>
    ensures { IfOk result (λ is. is ≡ (is_using (among names.now) (plain_stmt_kind kind.now) || are_using (among names.now) (plain_stmts rest.now) || ending_uses (names_after (among names.now) (plain_stmts rest.now)) (plain_ending ending.entry))) }
{
    let here = is_using(alloc, names, kind)?;
    let later = are_using(alloc, names, rest)?;
    let after = names_after(alloc, names, rest)?;
    Ok(either(either(here, later), ending_uses(&after, ending)))
}

/// Whether a value crosses, by what stands after it in its body.
#[tactic(auto, using(crate::proofs::UseLemmas::one_name))]
pub(crate) fn does_cross(
    alloc: Global,
    v: u32,
    rest: &[Stmt],
    ending: Ending<'_>,
) -> Result<bool, NoMemory>
    ensures { IfOk result (λ is. is ≡ does_cross v (plain_stmts rest.now) (plain_ending ending.entry)) }
{
    let mut names = vec![in alloc; v]?;
    let mut at = 0;
    for s in rest {
        at += 1;
        if !is_primitive(&s.kind) {
            return use_from(alloc, &names, &s.kind, &rest[at..], ending);
        }
        rename_in(&mut names, &s.kind)?;
    }
    Ok(is_apart(&names, ending))
}
