//! The refusals of an expression.

ghost use Rattle.std.specs.Prelude.{◌≡◌, ◌++◌, Some};
ghost use Rattle.sp_reader.specs.Plain.{plain_digits, plain_expr, plain_exprs, plain_ident, plain_kind};
ghost use Rattle.sp_reader.specs.PlainTree.{row};
ghost use Rattle.sp_types.specs.Expressions as spec;
ghost use Rattle.sp_types.specs.First.{notes};
ghost use Rattle.sp_types.specs.Plain.{plain_symbol, visible_of};
ghost use Rattle.sp_types.specs.Visible.{symbol_of};

use crate::literal::literal_word;
use crate::own::{Ask, Own};
use crate::refusal::{Finding, Found, Rule};
use crate::scope::{Scope, Symbol};
use crate::types::{
    compared_at, is_comparison, is_type, own, own_or_int, takes_numbers, type_of, type_place,
};
use sp_reader::{Digits, Ident, SynExpr, SynExprKind, SynTy, SynUn};
use sp_words::{BinOp, Kind, Ty};

/// A name that isn't visible, or that of an accumulator around.
#[tactic(auto, using(crate::proofs::FindingLemmas::notes_append))]
pub(crate) fn check_name(scope: &Scope, name: &Ident, finding: &mut Finding)
    ensures { finding.new.first ≡ notes finding.old.first (spec.name_refusals (visible_of scope.now) (plain_ident name.now)) }
{
    finding.note_if(scope.find(&name.text).is_none(), name.at, Rule::UnknownName);
    finding.note_if(scope.is_busy(&name.text), name.at, Rule::Misused);
}

/// Whether a name can stand as a value, alone or with `.value`.
fn is_value(scope: &Scope, dotted: bool, name: &str) -> bool
    ensures { result ≡ spec.is_value dotted (symbol_of (visible_of scope.now) name.now) }
{
    match scope.find(name) {
        Some(Symbol::Memory { kind, .. }) => match kind {
            Kind::Reg | Kind::ArgIn => true,
            _ => false,
        },
        Some(Symbol::Value(_)) => !dotted,
        Some(Symbol::Counter) => !dotted,
        None => true,
    }
}

pub(crate) fn is_kind(kind: Kind, other: Kind) -> bool
    ensures { result ≡ spec.is_kind kind other }
{
    match (kind, other) {
        (Kind::Reg, Kind::Reg) => true,
        (Kind::Sram, Kind::Sram) => true,
        (Kind::Fifo, Kind::Fifo) => true,
        (Kind::LineBuf, Kind::LineBuf) => true,
        (Kind::Dram, Kind::Dram) => true,
        (Kind::ArgIn, Kind::ArgIn) => true,
        (Kind::ArgOut, Kind::ArgOut) => true,
        _ => false,
    }
}

/// Whether a name is that of a memory of the kind, or isn't visible.
pub(crate) fn may_be(scope: &Scope, kind: Kind, name: &str) -> bool
    ensures { result ≡ spec.may_be kind (symbol_of (visible_of scope.now) name.now) }
{
    match scope.find(name) {
        Some(Symbol::Memory { kind: other, .. }) => is_kind(kind, *other),
        Some(Symbol::Value(_)) => false,
        Some(Symbol::Counter) => false,
        None => true,
    }
}

/// How many indices a read has, if there is one.
fn read_rank(symbol: &Symbol) -> Option<usize>
    ensures { result ≡ spec.read_rank (Some (plain_symbol symbol.now)) }
{
    match symbol {
        Symbol::Memory { kind, dims, .. } => match kind {
            Kind::Sram => Some(dims.len()),
            Kind::LineBuf => Some(2),
            Kind::Dram | Kind::ArgOut => None,
            Kind::Reg | Kind::Fifo | Kind::ArgIn => Some(0),
        },
        Symbol::Value(_) => Some(0),
        Symbol::Counter => Some(0),
    }
}

/// A read of what has no reads, or with another number of indices.
#[tactic(auto, unfolding(crate::specs::First::notes))]
fn check_access(scope: &Scope, name: &Ident, got: usize, finding: &mut Finding)
    ensures { finding.new.first ≡ notes finding.old.first (spec.access_refusals name.now.at (symbol_of (visible_of scope.now) (plain_ident name.now).text) got) }
{
    let Some(symbol) = scope.find(&name.text) else {
        return;
    };
    match read_rank(symbol) {
        Some(want) => finding.note_count(name.at, want, got),
        None => finding.note_if(true, name.at, Rule::Misused),
    }
}

/// An expression whose type is another than the one at which it is checked.
#[tactic(auto, unfolding(crate::specs::First::notes))]
pub(crate) fn check_type(at: u32, want: Option<Ty>, got: Own, finding: &mut Finding)
    ensures { finding.new.first ≡ notes finding.old.first (spec.other_type at want got) }
{
    let Some(want) = want else {
        return;
    };
    match got {
        Own::Known(got) => {
            let rule = Rule::TypeClash {
                want,
                got: Found::Typed(got),
            };
            finding.note_if(!is_type(want, got), at, rule);
        }
        Own::Nothing | Own::Unknown => {}
    }
}

fn is_bit(own: Own) -> bool
    ensures { result ≡ spec.is_bit own }
{
    match own {
        Own::Known(Ty::Bit) => true,
        _ => false,
    }
}

/// A `Bit` where a number is wanted.
fn check_number(at: u32, must: bool, got: Own, finding: &mut Finding)
    ensures { finding.new.first ≡ notes finding.old.first (spec.no_number at must got) }
{
    let rule = Rule::TypeClash {
        want: Ty::int(),
        got: Found::Typed(Ty::Bit),
    };
    finding.note_if(must && is_bit(got), at, rule);
}

/// A literal that has no word of the type at which it is checked.
#[tactic(auto, unfolding(crate::specs::First::notes))]
pub(crate) fn check_literal(at: u32, want: Option<Ty>, number: &Digits, finding: &mut Finding)
    ensures { finding.new.first ≡ notes finding.old.first (spec.literal_refusals at want (plain_digits number.now)) }
{
    let Some(want) = want else {
        return;
    };
    let rule = Rule::TypeClash {
        want,
        got: Found::Literal,
    };
    finding.note_if(literal_word(want, number).is_none(), at, rule);
}

/// A type that is none.
pub(crate) fn check_written(ty: SynTy, finding: &mut Finding)
    ensures { finding.new.first ≡ notes finding.old.first (spec.type_refusals ty) }
{
    let rule = Rule::TypeClash {
        want: Ty::int(),
        got: Found::Literal,
    };
    finding.note_if(type_of(ty).is_none(), type_place(ty), rule);
}

/// An expression that is checked at a type, and may be a `Bit`.
pub(crate) fn at_type(want: Option<Ty>, still: bool) -> Ask
    ensures { result ≡ spec.at_type want still }
{
    Ask {
        want,
        still,
        number: false,
    }
}

/// An operand that is checked as the expression is.
fn operand(ask: Ask, must: bool) -> Ask
    ensures { result ≡ spec.operand ask must }
{
    Ask {
        want: ask.want,
        still: ask.still,
        number: must,
    }
}

/// The operand of a prefix.
fn unary_ask(op: SynUn, ask: Ask) -> Ask
    ensures { result ≡ spec.unary_ask op ask }
{
    match op {
        SynUn::Minus | SynUn::Tilde => operand(ask, true),
        SynUn::Bang => at_type(Some(Ty::Bit), ask.still),
    }
}

/// The operands of an operator.
fn binary_ask(scope: &Scope, op: BinOp, ask: Ask, a: &SynExpr, b: &SynExpr) -> Ask
    ensures { result ≡ spec.binary_ask (visible_of scope.now) op ask (plain_expr a.now) (plain_expr b.now) }
{
    let want = if is_comparison(op) {
        compared_at(scope, a, b)
    } else {
        ask.want
    };
    Ask {
        want,
        still: ask.still,
        number: takes_numbers(op),
    }
}

/// The type at which the operand of a cast is checked.
fn cast_from(scope: &Scope, e: &SynExpr, ty: SynTy) -> Option<Ty>
    ensures { result ≡ spec.cast_from (visible_of scope.now) (plain_expr e.now) ty }
{
    match &e.kind {
        SynExprKind::Number(_) => type_of(ty),
        _ => own_or_int(own(scope, e)),
    }
}

/// An expression with its parts.
#[cycle(check)]
#[tactic(auto, using(crate::proofs::FindingLemmas::notes_append))]
pub(crate) fn check(scope: &Scope, ask: Ask, e: &SynExpr, finding: &mut Finding)
    ensures { finding.new.first ≡ notes finding.old.first (spec.expr_refusals (visible_of scope.now) ask (plain_expr e.now)) }
{
    let got = own(scope, e);
    check_type(e.at, ask.want, got, finding);
    check_number(e.at, ask.number, got, finding);
    check_kind(scope, ask, e, finding);
}

/// What an expression is.
#[cycle(check)]
#[tactic(auto, using(crate::proofs::FindingLemmas::notes_append, crate::proofs::FindingLemmas::notes_none))]
fn check_kind(scope: &Scope, ask: Ask, e: &SynExpr, finding: &mut Finding)
    ensures { finding.new.first ≡ notes finding.old.first (spec.kind_refusals (visible_of scope.now) ask e.now.at (plain_kind e.now.kind)) }
{
    match &e.kind {
        SynExprKind::Number(number) => check_literal(e.at, ask.want, number, finding),
        SynExprKind::Truth(_) => {}
        SynExprKind::Name(name, dotted) => {
            check_name(scope, name, finding);
            finding.note_if(
                !is_value(scope, *dotted, &name.text),
                name.at,
                Rule::Misused,
            );
        }
        SynExprKind::Deq(name) => {
            check_name(scope, name, finding);
            let none = ask.still || !may_be(scope, Kind::Fifo, &name.text);
            finding.note_if(none, name.at, Rule::Misused);
        }
        SynExprKind::At(name, indices) => {
            check_name(scope, name, finding);
            check_access(scope, name, indices.len(), finding);
            check_all(scope, at_type(Some(Ty::int()), ask.still), indices, finding);
        }
        SynExprKind::Mux(chosen, a, b) => {
            check(scope, at_type(Some(Ty::Bit), ask.still), chosen, finding);
            check(scope, operand(ask, false), a, finding);
            check(scope, operand(ask, false), b, finding);
        }
        SynExprKind::Min(a, b) => {
            check(scope, operand(ask, true), a, finding);
            check(scope, operand(ask, true), b, finding);
        }
        SynExprKind::Max(a, b) => {
            check(scope, operand(ask, true), a, finding);
            check(scope, operand(ask, true), b, finding);
        }
        SynExprKind::One(op, a) => check(scope, unary_ask(*op, ask), a, finding),
        SynExprKind::Two(op, a, b) => {
            let inner = binary_ask(scope, *op, ask, a, b);
            check(scope, inner, a, finding);
            check(scope, inner, b, finding);
        }
        SynExprKind::Shift(_, a, _) => check(scope, operand(ask, true), a, finding),
        SynExprKind::Cast(a, ty) => {
            check(
                scope,
                at_type(cast_from(scope, a, *ty), ask.still),
                a,
                finding,
            );
            check_written(*ty, finding);
        }
    }
}

/// Indices.
#[cycle(check)]
#[tactic(auto, using(crate::proofs::FindingLemmas::notes_append, crate::proofs::FindingLemmas::notes_none))]
pub(crate) fn check_all(scope: &Scope, ask: Ask, all: &[SynExpr], finding: &mut Finding)
    ensures { finding.new.first ≡ notes finding.old.first (spec.exprs_refusals (visible_of scope.now) ask (row (plain_exprs all.now))) }
{
    for e in all {
        check(scope, ask, e, finding);
    }
}
