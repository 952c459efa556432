//! The forms of the operations of a list.
ghost use Rattle.std.specs.Prelude.{◌≡◌, length, map, IfOk, IfSome};
ghost use Rattle.sp_core.specs.Plain.{plain_op, plain_ops, plain_mem};
ghost use Rattle.sp_core.specs.Typed.{is_type};
ghost use Rattle.sp_patterns.specs.Forms.{HaveCounters, is_masked_alike, form_of, forms_of};

use crate::leaves::{counter, literal, symbol};
use crate::operands::{difference_of_operands, opposite_of, product_of_operands, sum_of_operands};
use crate::place::CounterPlace;
use crate::shape::{Shape, shape_of};
use sp_affine::Form;
use sp_core::{CoreMem, Op};
use sp_words::Ty;
use std::alloc::{AllocError, Global};

/// The form of each operation of a list, where it has one: over these counters, outermost first, and for an access under
/// this mask.
pub fn forms_of(
    alloc: Global,
    mems: &[CoreMem],
    ops: &[Op],
    mask: Option<u32>,
    places: &[CounterPlace],
) -> Result<Vec<Option<Form>>, AllocError>
    ensures forms { IfOk result (λ v. v.items ≡ forms_of (map plain_mem mems.now) (plain_ops ops.now) mask places.now) }
    ensures counters { IfOk result (λ v. HaveCounters (length places.now) v.items) }
{
    let mut forms = Vec::with_capacity(alloc, ops.len())?;
    for op in ops {
        let form = form_of(alloc, mems, ops, mask, places, op, &forms)?;
        forms.push(form)?;
    }
    Ok(forms)
}

fn form_of(
    alloc: Global,
    mems: &[CoreMem],
    ops: &[Op],
    mask: Option<u32>,
    places: &[CounterPlace],
    op: &Op,
    done: &[Option<Form>],
) -> Result<Option<Form>, AllocError>
    requires { HaveCounters (length places.now) done.now }
    ensures form { IfOk result (λ r. r ≡ form_of (map plain_mem mems.now) (plain_ops ops.now) mask places.now (plain_op op.now) done.now) }
    ensures counters { IfOk result (λ r. IfSome r (λ f. length f.coefs ≡ length places.now)) }
{
    if !(is_type(op.ty, Ty::int()) && is_masked_alike(op.mask, mask)) {
        return Ok(None);
    }
    match shape_of(op.kind) {
        Shape::Literal(w) => literal(alloc, places, w),
        Shape::Counter(c, lane) => counter(alloc, places, c, lane),
        Shape::Symbol => symbol(alloc, mems, ops, places, op.mem),
        Shape::Opposite => opposite_of(alloc, places.len(), done, &op.args),
        Shape::Sum => sum_of_operands(alloc, places.len(), done, &op.args),
        Shape::Difference => difference_of_operands(alloc, places.len(), done, &op.args),
        Shape::Product => product_of_operands(alloc, places.len(), done, &op.args),
        Shape::Other => Ok(None),
    }
}

fn is_type(a: Ty, b: Ty) -> bool
    ensures { result ≡ is_type a b }
{
    match (a, b) {
        (Ty::Bit, Ty::Bit) => true,
        (Ty::Fix(x), Ty::Fix(y)) => {
            x.signed() == y.signed() && (x.whole() == y.whole() && x.frac() == y.frac())
        }
        _ => false,
    }
}

fn is_masked_alike(mask: Option<u32>, wanted: Option<u32>) -> bool
    ensures { result ≡ is_masked_alike mask wanted }
{
    let Some(m) = mask else {
        return true;
    };
    let Some(n) = wanted else {
        return false;
    };
    m == n
}
