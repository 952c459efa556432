//! Parts of the refusals of loops and FSMs: their heads, accumulators and values.

ghost use Rattle.std.specs.Prelude.{◌≡◌, ◌++◌, length, nat_eq, OnOk, None, Some};
ghost use Rattle.std.specs.Cmp.Lexicographic.{pointwise};
ghost use Rattle.std.specs.Option.{option_map};
ghost use Rattle.sp_reader.specs.Plain.{plain_expr, plain_ident};
ghost use Rattle.sp_reader.specs.PlainProgram.{plain_comb, plain_counters, plain_idents};
ghost use Rattle.sp_types.specs.Expressions.{expr_refusals};
ghost use Rattle.sp_types.specs.First.{notes};
ghost use Rattle.sp_types.specs.Plain.{plain_symbol, visible_of};
ghost use Rattle.sp_types.specs.Spans.{twice, with_binds};
ghost use Rattle.sp_types.specs.Statements as spec;
ghost use Rattle.sp_types.specs.Visible.{symbol_of, declare, value};

use crate::expression::{at_type, check, check_name, is_kind, may_be};
use crate::own::Ask;
use crate::refusal::{Finding, Rule};
use crate::scope::{Scope, Symbol};
use crate::simple::{check_kind_use, word};
use crate::span::{check_binds, check_comb, check_counters, check_names_for, check_twice};
use crate::types::{is_type, own, own_or_int};
use sp_reader::{Ident, SynComb, SynCounter, SynExpr, SynExprKind};
use sp_words::{Kind, Ty};
use std::alloc::{AllocError, Global};

/// How a loop begins; its binders are visible from here on.
#[tactic(auto, using(crate::proofs::FindingLemmas::notes_append, crate::proofs::SpanLemmas::counter_count))]
pub(crate) fn check_head(
    alloc: Global,
    scope: &mut Scope,
    counters: &[SynCounter],
    binds: &[Ident],
    finding: &mut Finding,
) -> Result<(), AllocError>
    ensures seen { OnOk result (visible_of scope.new ≡ with_binds (visible_of scope.old) (plain_idents binds.now)) }
    ensures found { OnOk result (finding.new.first ≡ notes finding.old.first (spec.head_refusals (visible_of scope.old) (plain_counters counters.now) (plain_idents binds.now))) }
{
    check_counters(scope, counters, finding);
    check_names_for(counters.len(), binds, finding);
    check_binds(alloc, scope, binds, finding)
}

/// An accumulator of a kind, with the head of its loop.
#[tactic(auto, using(crate::proofs::FindingLemmas::notes_append))]
pub(crate) fn check_acc(
    alloc: Global,
    scope: &mut Scope,
    kind: Kind,
    counters: &[SynCounter],
    binds: &[Ident],
    acc: &Ident,
    finding: &mut Finding,
) -> Result<(), AllocError>
    ensures seen { OnOk result (visible_of scope.new ≡ with_binds (visible_of scope.old) (plain_idents binds.now)) }
    ensures found { OnOk result (finding.new.first ≡ notes finding.old.first (spec.acc_refusals (visible_of scope.old) kind (plain_counters counters.now) (plain_idents binds.now) (plain_ident acc.now))) }
{
    check_kind_use(scope, kind, acc, finding);
    check_head(alloc, scope, counters, binds, finding)
}

/// The value of a Reduce or a Fold, at the accumulator's type, and the combiner.
#[tactic(auto, using(crate::proofs::FindingLemmas::notes_append))]
pub(crate) fn check_value(
    ty: Option<Ty>,
    scope: &Scope,
    value: &SynExpr,
    comb: &SynComb,
    finding: &mut Finding,
)
    ensures { finding.new.first ≡ notes finding.old.first (spec.value_refusals ty (visible_of scope.now) (plain_expr value.now) (plain_comb comb.now)) }
{
    check(scope, word(ty), value, finding);
    check_comb(ty, comb, finding);
}

fn is_same_if_known(a: Option<Ty>, b: Option<Ty>) -> bool
    ensures { result ≡ spec.same_if_known a b }
{
    let Some(a) = a else {
        return true;
    };
    let Some(b) = b else {
        return true;
    };
    is_type(a, b)
}

fn is_same_dims(a: &[u32], b: &[u32]) -> bool
    ensures { result ≡ pointwise nat_eq a.now b.now }
{
    a == b
}

/// Whether a name is that of an SRAM of the type and the dimensions, or isn't visible.
fn fits_sram(scope: &Scope, ty: Option<Ty>, dims: &[u32], name: &str) -> bool
    ensures { result ≡ spec.fits_sram ty dims.now (symbol_of (visible_of scope.now) name.now) }
{
    match scope.find(name) {
        Some(
            Symbol::Memory {
                kind,
                ty: part,
                dims: sizes,
            },
        ) => {
            is_kind(Kind::Sram, *kind) && (is_same_if_known(ty, *part) && is_same_dims(dims, sizes))
        }
        Some(Symbol::Value(_)) => false,
        Some(Symbol::Counter) => false,
        None => true,
    }
}

/// Whether a name can be the value of a MemReduce with this accumulator.
fn fits_acc(scope: &Scope, acc: &str, name: &str) -> bool
    ensures { result ≡ spec.fits_acc (symbol_of (visible_of scope.now) acc.now) (symbol_of (visible_of scope.now) name.now) }
{
    match scope.find(acc) {
        Some(Symbol::Memory { ty, dims, .. }) => fits_sram(scope, *ty, dims, name),
        Some(Symbol::Value(_)) => may_be(scope, Kind::Sram, name),
        Some(Symbol::Counter) => may_be(scope, Kind::Sram, name),
        None => may_be(scope, Kind::Sram, name),
    }
}

/// The name that an expression is, if it is one alone.
fn bare_name(e: &SynExpr) -> Option<&Ident>
    ensures { spec.bare_name (plain_expr e.now) ≡ option_map (λ i. plain_ident i.now) result }
{
    match &e.kind {
        SynExprKind::Name(name, false) => Some(name),
        _ => None,
    }
}

/// Whether the expression is a name that is visible.
pub(crate) fn is_visible(scope: &Scope, e: &SynExpr) -> bool
    ensures { result ≡ spec.is_visible (visible_of scope.now) (plain_expr e.now) }
{
    match bare_name(e) {
        Some(name) => scope.find(&name.text).is_some(),
        None => false,
    }
}

/// The value of a MemReduce; `outside` says whether it is a name that was visible before the body.
#[tactic(auto, using(crate::proofs::FindingLemmas::notes_append))]
pub(crate) fn check_part(
    scope: &Scope,
    outside: bool,
    acc: &Ident,
    value: &SynExpr,
    finding: &mut Finding,
)
    ensures { finding.new.first ≡ notes finding.old.first (spec.part_if outside (visible_of scope.now) (plain_ident acc.now).text (plain_expr value.now)) }
{
    match bare_name(value) {
        Some(name) => {
            check_name(scope, name, finding);
            let wrong = outside || !fits_acc(scope, &acc.text, &name.text);
            finding.note_if(wrong, name.at, Rule::Misused);
        }
        None => {
            check(scope, word(None), value, finding);
            finding.note_if(true, value.at, Rule::Misused);
        }
    }
}

/// How an expression is checked that takes no word from a FIFO.
pub(crate) fn still(ty: Option<Ty>) -> Ask
    ensures { result ≡ spec.still ty }
{
    at_type(ty, true)
}

/// The type of the state that begins so.
pub(crate) fn state_type(scope: &Scope, start: &SynExpr) -> Option<Ty>
    ensures { result ≡ spec.state (visible_of scope.now) (plain_expr start.now) }
{
    own_or_int(own(scope, start))
}

/// A binder of an FSM, which is visible from here on.
pub(crate) fn check_binder(
    alloc: Global,
    scope: &mut Scope,
    name: &Ident,
    ty: Option<Ty>,
    finding: &mut Finding,
) -> Result<(), AllocError>
    ensures seen { OnOk result (visible_of scope.new ≡ declare (visible_of scope.old) (plain_ident name.now).text (value ty)) }
    ensures found { OnOk result (finding.new.first ≡ notes finding.old.first (twice (visible_of scope.old) (plain_ident name.now))) }
{
    check_twice(scope, name, finding);
    scope.declare(alloc, &name.text, Symbol::Value(ty))
}

/// An expression under a binder of its own.
#[tactic(auto, using(crate::proofs::FindingLemmas::notes_append, crate::proofs::GrowthLemmas::back_declared))]
pub(crate) fn check_under(
    alloc: Global,
    scope: &mut Scope,
    name: &Ident,
    ty: Option<Ty>,
    ask: Ask,
    e: &SynExpr,
    finding: &mut Finding,
) -> Result<(), AllocError>
    ensures seen { OnOk result (visible_of scope.new ≡ visible_of scope.old) }
    ensures found { OnOk result (finding.new.first ≡ notes finding.old.first (twice (visible_of scope.old) (plain_ident name.now) ++ expr_refusals (declare (visible_of scope.old) (plain_ident name.now).text (value ty)) ask (plain_expr e.now))) }
{
    let mark = scope.mark();
    check_binder(alloc, scope, name, ty, finding)?;
    check(scope, ask, e, finding);
    scope.leave(mark);
    Ok(())
}
