//! Types as they are written, and the types that expressions have by themselves.

ghost use Rattle.std.specs.Prelude.{◌≡◌};
ghost use Rattle.sp_reader.specs.Plain.{plain_expr};
ghost use Rattle.sp_types.specs.Plain.{visible_of};
ghost use Rattle.sp_types.specs.Types as spec;
ghost use Rattle.sp_types.specs.Visible.{symbol_of};

use crate::own::Own;
use crate::scope::{Scope, Symbol};
use sp_reader::{SynExpr, SynExprKind, SynTy, SynUn};
use sp_words::{BinOp, FixTy, Ty};

/// Whether two types are one.
pub(crate) fn is_type(a: Ty, b: Ty) -> bool
    ensures { result ≡ spec.is_type a b }
{
    match (a, b) {
        (Ty::Bit, Ty::Bit) => true,
        (Ty::Fix(x), Ty::Fix(y)) => {
            x.signed() == y.signed() && (x.whole() == y.whole() && x.frac() == y.frac())
        }
        _ => false,
    }
}

/// The fixed-point type of a sign and so many bits, if they are 1 to 64.
fn fixed(signed: bool, whole: u8, frac: u8) -> Option<Ty>
    ensures { result ≡ spec.fixed signed whole frac }
{
    match FixTy::new(signed, whole, frac) {
        Some(fix) => Some(Ty::Fix(fix)),
        None => None,
    }
}

/// The type that is written, if it is one.
#[tactic(auto, unfolding(crate::specs::Types::type_of))]
pub(crate) fn type_of(ty: SynTy) -> Option<Ty>
    ensures { result ≡ spec.type_of ty }
{
    match ty {
        SynTy::Int { .. } => Some(Ty::int()),
        SynTy::Bit { .. } => Some(Ty::Bit),
        SynTy::FixPt {
            signed,
            whole,
            frac,
            ..
        } => fixed(signed, whole, frac),
    }
}

/// Where it is written.
pub(crate) fn type_place(ty: SynTy) -> u32
    ensures { result ≡ spec.type_place ty }
{
    match ty {
        SynTy::Int { at } => at,
        SynTy::Bit { at } => at,
        SynTy::FixPt { at, .. } => at,
    }
}

/// A type as that of an expression.
pub(crate) fn own_type(ty: Option<Ty>) -> Own
    ensures { result ≡ spec.own_type ty }
{
    match ty {
        Some(ty) => Own::Known(ty),
        None => Own::Unknown,
    }
}

/// The type of a name's word, where the name is visible and the type known.
pub(crate) fn name_type(scope: &Scope, name: &str) -> Option<Ty>
    ensures { result ≡ spec.symbol_type (symbol_of (visible_of scope.now) name.now) }
{
    match scope.find(name) {
        Some(Symbol::Memory { ty, .. }) => *ty,
        Some(Symbol::Value(ty)) => *ty,
        Some(Symbol::Counter) => Some(Ty::int()),
        None => None,
    }
}

/// The first of two types that isn't none.
fn either(a: Own, b: Own) -> Own
    ensures { result ≡ spec.either a b }
{
    match a {
        Own::Nothing => b,
        Own::Known(ty) => Own::Known(ty),
        Own::Unknown => Own::Unknown,
    }
}

pub(crate) fn is_comparison(op: BinOp) -> bool
    ensures { result ≡ spec.is_comparison op }
{
    match op {
        BinOp::Lt | BinOp::Le | BinOp::Gt | BinOp::Ge | BinOp::Eq | BinOp::Ne => true,
        _ => false,
    }
}

/// Whether an operator's operands are numbers, which bits are not.
pub(crate) fn takes_numbers(op: BinOp) -> bool
    ensures { result ≡ spec.takes_numbers op }
{
    match op {
        BinOp::And | BinOp::Or | BinOp::Xor | BinOp::Eq | BinOp::Ne => false,
        _ => true,
    }
}

/// The type of an expression by itself.
pub(crate) fn own(scope: &Scope, e: &SynExpr) -> Own
    ensures { result ≡ spec.own (visible_of scope.now) (plain_expr e.now) }
{
    match &e.kind {
        SynExprKind::Number(_) => Own::Nothing,
        SynExprKind::Truth(_) => Own::Known(Ty::Bit),
        SynExprKind::Name(name, _) => own_type(name_type(scope, &name.text)),
        SynExprKind::Deq(name) => own_type(name_type(scope, &name.text)),
        SynExprKind::At(name, _) => own_type(name_type(scope, &name.text)),
        SynExprKind::Mux(_, a, b) => either(own(scope, a), own(scope, b)),
        SynExprKind::Min(a, b) => either(own(scope, a), own(scope, b)),
        SynExprKind::Max(a, b) => either(own(scope, a), own(scope, b)),
        SynExprKind::One(SynUn::Bang, _) => Own::Known(Ty::Bit),
        SynExprKind::One(_, a) => own(scope, a),
        SynExprKind::Two(op, a, b) => {
            if is_comparison(*op) {
                Own::Known(Ty::Bit)
            } else {
                either(own(scope, a), own(scope, b))
            }
        }
        SynExprKind::Shift(_, a, _) => own(scope, a),
        SynExprKind::Cast(_, ty) => own_type(type_of(*ty)),
    }
}

/// The type at which an expression is checked that has no other.
pub(crate) fn own_or_int(own: Own) -> Option<Ty>
    ensures { result ≡ spec.own_or_int own }
{
    match own {
        Own::Nothing => Some(Ty::int()),
        Own::Known(ty) => Some(ty),
        Own::Unknown => None,
    }
}

/// The type at which the operands of a comparison are checked.
pub(crate) fn compared_at(scope: &Scope, a: &SynExpr, b: &SynExpr) -> Option<Ty>
    ensures { result ≡ spec.compared_at (visible_of scope.now) (plain_expr a.now) (plain_expr b.now) }
{
    own_or_int(either(own(scope, a), own(scope, b)))
}
