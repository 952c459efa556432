//! Types as they are written, and the types that expressions have by themselves.

ghost use Rattle.std.specs.Prelude.{◌≡◌, Some};
ghost use Rattle.sp_reader.specs.Plain.{plain_expr};
ghost use Rattle.sp_types.specs.Types as rule;
ghost use Rattle.sp_types.specs.Visible.{symbol_of};
ghost use Rattle.sp_typed.specs.Expressions as spec;
ghost use Rattle.sp_typed.specs.Named.{meant_by, seen_at};
ghost use Rattle.sp_typed.specs.Own.{own_if_any, first_of};
ghost use Rattle.sp_typed.specs.Plain.{here_of, plain_symbol};

use crate::scope::{Scope, Symbol};
use sp_reader::{SynExpr, SynExprKind, SynTy, SynUn};
use sp_words::{BinOp, FixTy, Ty};

/// The fixed-point type of a sign and so many bits, if they are 1 to 64.
fn fixed(signed: bool, whole: u8, frac: u8) -> Option<Ty>
    ensures { result ≡ rule.fixed signed whole frac }
{
    match FixTy::new(signed, whole, frac) {
        Some(fix) => Some(Ty::Fix(fix)),
        None => None,
    }
}

/// The type that is written, if it is one.
pub fn type_of(ty: SynTy) -> Option<Ty>
    ensures { result ≡ rule.type_of ty }
{
    match ty {
        SynTy::Int { .. } => Some(Ty::int()),
        SynTy::Bit { .. } => Some(Ty::Bit),
        SynTy::FixPt {
            signed,
            whole,
            frac,
            ..
        } => fixed(signed, whole, frac),
    }
}

/// A type that is known.
pub fn known(ty: Option<Ty>) -> Ty
    ensures { result ≡ spec.known ty }
{
    match ty {
        Some(ty) => ty,
        None => Ty::int(),
    }
}

/// The type of a symbol's word.
fn symbol_type(symbol: &Symbol) -> Option<Ty>
    ensures { result ≡ rule.symbol_type (Some (plain_symbol symbol.now)) }
{
    match symbol {
        Symbol::Memory { ty, .. } => *ty,
        Symbol::Value(ty) => *ty,
        Symbol::Counter => Some(Ty::int()),
    }
}

/// The type of the word of a name.
pub(crate) fn word_type(scope: &Scope, name: &str) -> Ty
    ensures { result ≡ spec.known (rule.symbol_type (spec.symbol_if (meant_by (here_of scope.now) name.now))) }
{
    match scope.find(name) {
        Some(entry) => known(symbol_type(&entry.symbol)),
        None => Ty::int(),
    }
}

pub(crate) fn is_comparison(op: BinOp) -> bool
    ensures { result ≡ rule.is_comparison op }
{
    match op {
        BinOp::Lt | BinOp::Le | BinOp::Gt | BinOp::Ge | BinOp::Eq | BinOp::Ne => true,
        _ => false,
    }
}

/// The type of a name's word, as that of an expression.
#[tactic(auto, using(crate::proofs::OwnLemmas::own_of_name))]
fn own_of_name(scope: &Scope, name: &str) -> Option<Ty>
    ensures { result ≡ own_if_any (rule.own_type (rule.symbol_type (symbol_of (seen_at (here_of scope.now)) name.now))) }
{
    Some(word_type(scope, name))
}

/// The type of an expression by itself, if it has one.
#[tactic(auto, using(crate::proofs::OwnLemmas::known_type, crate::proofs::OwnLemmas::first_either))]
pub(crate) fn own(scope: &Scope, e: &SynExpr) -> Option<Ty>
    ensures { result ≡ own_if_any (rule.own (seen_at (here_of scope.now)) (plain_expr e.now)) }
{
    match &e.kind {
        SynExprKind::Number(_) => None,
        SynExprKind::Truth(_) => Some(Ty::Bit),
        SynExprKind::Name(name, _) => own_of_name(scope, &name.text),
        SynExprKind::Deq(name) => own_of_name(scope, &name.text),
        SynExprKind::At(name, _) => own_of_name(scope, &name.text),
        SynExprKind::Mux(_, a, b) => either(own(scope, a), own(scope, b)),
        SynExprKind::Min(a, b) => either(own(scope, a), own(scope, b)),
        SynExprKind::Max(a, b) => either(own(scope, a), own(scope, b)),
        SynExprKind::One(SynUn::Bang, _) => Some(Ty::Bit),
        SynExprKind::One(_, a) => own(scope, a),
        SynExprKind::Two(op, a, b) => {
            if is_comparison(*op) {
                Some(Ty::Bit)
            } else {
                either(own(scope, a), own(scope, b))
            }
        }
        SynExprKind::Shift(_, a, _) => own(scope, a),
        SynExprKind::Cast(_, ty) => Some(known(type_of(*ty))),
    }
}

/// The first of two types that there is.
fn either(a: Option<Ty>, b: Option<Ty>) -> Option<Ty>
    ensures { result ≡ first_of a b }
{
    match a {
        Some(ty) => Some(ty),
        None => b,
    }
}

/// The type at which an expression is checked that has no other.
#[tactic(auto, using(crate::proofs::OwnLemmas::known_own))]
pub(crate) fn type_by_itself(scope: &Scope, e: &SynExpr) -> Ty
    ensures { result ≡ spec.type_by_itself (here_of scope.now) (plain_expr e.now) }
{
    known(own(scope, e))
}

/// The type of the operands of an operator, by that of the operation.
#[tactic(auto, using(crate::proofs::OwnLemmas::known_compared))]
pub(crate) fn operand_type(scope: &Scope, op: BinOp, ty: Ty, a: &SynExpr, b: &SynExpr) -> Ty
    ensures { result ≡ spec.operand_type (here_of scope.now) op ty (plain_expr a.now) (plain_expr b.now) }
{
    if is_comparison(op) {
        known(either(own(scope, a), own(scope, b)))
    } else {
        ty
    }
}
