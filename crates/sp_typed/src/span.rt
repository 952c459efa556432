//! The typed spans of a slice, and the typed counters of a loop.

ghost use Rattle.std.specs.Prelude.{◌≡◌, ◌+◌, map, IfOk};
ghost use Rattle.sp_reader.specs.Plain as tree;
ghost use Rattle.sp_reader.specs.PlainProgram.{plain_counter as tree_counter, plain_counters, plain_from, plain_span as tree_span, plain_spans};
ghost use Rattle.sp_tree.specs.Plain.{plain_expr};
ghost use Rattle.sp_tree.specs.PlainTree.{plain_counter, plain_span};
ghost use Rattle.sp_typed.specs.Plain.{here_of};
ghost use Rattle.sp_typed.specs.Statements as spec;
ghost use Rattle.sp_typed.specs.Expressions as expression;
ghost use Rattle.sp_words.specs.Types.{int_type};

use crate::expression::typed;
use crate::scope::Scope;
use sp_reader::{SynCounter, SynExpr, SynPar, SynSpan};
use sp_tree::{Comb, Counter, CtrId, Expr, ExprKind, Span};
use sp_words::{BinOp, Style, Ty};
use std::alloc::{AllocError, Global};

/// The number after this one; want of memory where 32 bits hold none.
pub(crate) fn next(number: u32) -> Result<u32, AllocError>
    ensures { IfOk result (λ n. n ≡ number + 1) }
{
    match number.checked_add(1) {
        Some(next) => Ok(next),
        None => Err(AllocError),
    }
}

/// One lane where none are written.
fn lanes(par: Option<SynPar>) -> u32
    ensures { result ≡ spec.lanes par }
{
    match par {
        Some(par) => par.lanes,
        None => 1,
    }
}

/// An expression of type `Int`.
pub(crate) fn int_typed(alloc: Global, scope: &Scope, e: &SynExpr) -> Result<Expr, AllocError>
    ensures { IfOk result (λ r. plain_expr r ≡ expression.typed (here_of scope.now) int_type (tree.plain_expr e.now)) }
{
    typed(alloc, scope, Ty::int(), e)
}

fn span_typed(alloc: Global, scope: &Scope, span: &SynSpan) -> Result<Span, AllocError>
    ensures { IfOk result (λ r. plain_span r ≡ spec.span_typed (here_of scope.now) (tree_span span.now)) }
{
    match span {
        SynSpan::One(e) => Ok(Span::One(int_typed(alloc, scope, e)?)),
        SynSpan::Range(from, until, par) => {
            let from = int_typed(alloc, scope, from)?;
            let until = int_typed(alloc, scope, until)?;
            Ok(Span::Range(from, until, lanes(*par)))
        }
    }
}

pub(crate) fn spans_typed(
    alloc: Global,
    scope: &Scope,
    spans: &[SynSpan],
) -> Result<Vec<Span>, AllocError>
    ensures { IfOk result (λ r. map plain_span r.items ≡ spec.spans_typed (here_of scope.now) (plain_spans spans.now)) }
{
    let mut typed_spans = Vec::new(alloc);
    for span in spans {
        typed_spans.push(span_typed(alloc, scope, span)?)?;
    }
    Ok(typed_spans)
}

/// A start that is written, or 0.
fn from_typed(
    alloc: Global,
    scope: &Scope,
    at: u32,
    from: &Option<SynExpr>,
) -> Result<Expr, AllocError>
    ensures { IfOk result (λ r. plain_expr r ≡ spec.from_typed (here_of scope.now) at (plain_from from.now)) }
{
    match from {
        Some(e) => int_typed(alloc, scope, e),
        None => Ok(Expr {
            at,
            ty: Ty::int(),
            kind: ExprKind::Lit(0),
        }),
    }
}

fn counter_typed(
    alloc: Global,
    scope: &Scope,
    number: u32,
    counter: &SynCounter,
) -> Result<Counter, AllocError>
    ensures { IfOk result (λ r. plain_counter r ≡ spec.counter_typed (here_of scope.now) number (tree_counter counter.now)) }
{
    let from = from_typed(alloc, scope, counter.until.at, &counter.from)?;
    let until = int_typed(alloc, scope, &counter.until)?;
    Ok(Counter {
        id: CtrId::new(number),
        from,
        until,
        by: counter.by,
        par: lanes(counter.par),
    })
}

pub(crate) fn counters_typed(
    alloc: Global,
    scope: &Scope,
    counters: &[SynCounter],
) -> Result<Vec<Counter>, AllocError>
    ensures { IfOk result (λ r. map plain_counter r.items ≡ spec.counters_typed (here_of scope.now) (here_of scope.now).counters (plain_counters counters.now)) }
{
    let mut typed_counters = Vec::new(alloc);
    let mut number = scope.counters;
    for counter in counters {
        typed_counters.push(counter_typed(alloc, scope, number, counter)?)?;
        number = next(number)?;
    }
    Ok(typed_counters)
}

/// A loop without a style is a pipe.
pub(crate) fn loop_style(style: Option<Style>) -> Style
    ensures { result ≡ spec.loop_style style }
{
    match style {
        Some(style) => style,
        None => Style::Pipe,
    }
}

pub(crate) fn comb_typed(op: BinOp) -> Comb
    ensures { result ≡ spec.comb_typed op }
{
    match op {
        BinOp::Mul => Comb::Mul,
        BinOp::And => Comb::And,
        BinOp::Or => Comb::Or,
        BinOp::Xor => Comb::Xor,
        BinOp::Min => Comb::Min,
        BinOp::Max => Comb::Max,
        _ => Comb::Add,
    }
}
