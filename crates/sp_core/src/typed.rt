//! The types of operations.

ghost use Rattle.std.specs.Prelude.{◌≡◌, map, IfOk, Some, None};
ghost use Rattle.sp_core.specs.Plain.{plain_op};
ghost use Rattle.sp_core.specs.Typed.{is_type, is_comparison, given_type, taken_types, is_given, gives, give_all, last_gives};

use crate::operation::{Op, OpKind};
use sp_words::{BinOp, Ty};
use std::alloc::{AllocError, Global};

pub(crate) fn is_type(a: Ty, b: Ty) -> bool
    ensures { result ≡ is_type a b }
{
    match (a, b) {
        (Ty::Bit, Ty::Bit) => true,
        (Ty::Fix(x), Ty::Fix(y)) => {
            x.signed() == y.signed() && (x.whole() == y.whole() && x.frac() == y.frac())
        }
        _ => false,
    }
}

fn is_comparison(op: BinOp) -> bool
    ensures { result ≡ is_comparison op }
{
    match op {
        BinOp::Lt | BinOp::Le | BinOp::Gt | BinOp::Ge | BinOp::Eq | BinOp::Ne => true,
        _ => false,
    }
}

/// The type of the word that an operation gives, if it gives one.
pub(crate) fn given_type(kind: OpKind, ty: Ty) -> Option<Ty>
    ensures { result ≡ given_type kind ty }
{
    match kind {
        OpKind::Write | OpKind::Enq | OpKind::Reset => None,
        OpKind::Two(op) => Some(if is_comparison(op) { Ty::Bit } else { ty }),
        OpKind::Cast(to) => Some(to),
        _ => Some(ty),
    }
}

/// The types of the words that an operation takes, by the number of indices of its memory.
pub(crate) fn taken_types(
    alloc: Global,
    kind: OpKind,
    ty: Ty,
    indices: usize,
) -> Result<Vec<Ty>, AllocError>
    ensures { IfOk result (λ types. types.items ≡ taken_types kind ty indices) }
{
    match kind {
        OpKind::Read => Ok(vec![in alloc; Ty::int(); indices]?),
        OpKind::Write => {
            let mut types = vec![in alloc; Ty::int(); indices]?;
            types.push(ty)?;
            Ok(types)
        }
        OpKind::Two(_) => Ok(vec![in alloc; ty, ty]?),
        OpKind::Mux => Ok(vec![in alloc; Ty::Bit, ty, ty]?),
        OpKind::Enq | OpKind::One(_) | OpKind::Shift(_, _) | OpKind::Cast(_) => {
            Ok(vec![in alloc; ty]?)
        }
        _ => Ok(Vec::new(alloc)),
    }
}

/// Whether a word of a type is given.
pub(crate) fn is_given(given: Option<Ty>, ty: Ty) -> bool
    ensures { result ≡ is_given given ty }
{
    match given {
        Some(other) => is_type(other, ty),
        None => false,
    }
}

/// Whether the operation at a place gives a word of a type.
pub(crate) fn gives(earlier: &[Option<Ty>], place: u32, ty: Ty) -> bool
    ensures { result ≡ gives earlier.now place ty }
{
    match earlier.get(place as usize) {
        Some(given) => is_given(*given, ty),
        None => false,
    }
}

/// Whether places have words of these types, one for each.
pub(crate) fn give_all(earlier: &[Option<Ty>], places: &[u32], types: &[Ty]) -> bool
    ensures { result ≡ give_all earlier.now places.now types.now }
{
    if places.len() != types.len() {
        return false;
    }
    for i in 0..places.len() {
        if !gives(earlier, places[i], types[i]) {
            return false;
        }
    }
    true
}

/// Whether the last operation of a list gives a word of a type.
pub(crate) fn last_gives(ops: &[Op], ty: Ty) -> bool
    ensures { result ≡ last_gives (map plain_op ops.now) ty }
{
    match ops.last() {
        Some(op) => is_given(given_type(op.kind, op.ty), ty),
        None => false,
    }
}
