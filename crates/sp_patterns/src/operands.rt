//! The forms of operations on the words of earlier ones.
ghost use Rattle.std.specs.Prelude.{◌≡◌, length, IfOk, IfSome, option_map, option_and_then};
ghost use Rattle.sp_patterns.specs.Forms.{HaveCounters, operand, of_both, opposite_form, sum_form, difference_form, product_form, multiple_form};

use crate::combine::{difference, is_constant, multiple, sum};
use sp_affine::Form;
use std::alloc::{AllocError, Global};

/// The form of an operand, by those of the operations before.
fn operand<'a>(
    counters: usize,
    done: &'a [Option<Form>],
    args: &[u32],
    k: usize,
) -> Option<&'a Form>
    requires { HaveCounters counters done.now }
    ensures form { option_map (λ f. f.now) result ≡ operand done.now args.now k }
    ensures counters { IfSome result (λ f. length f.now.coefs ≡ counters) }
{
    let place = args.get(k)?;
    done.get(*place as usize)?.as_ref()
}

/// The opposite of the first operand.
pub fn opposite_of(
    alloc: Global,
    counters: usize,
    done: &[Option<Form>],
    args: &[u32],
) -> Result<Option<Form>, AllocError>
    requires { HaveCounters counters done.now }
    ensures form { IfOk result (λ r. r ≡ option_and_then opposite_form (operand done.now args.now 0)) }
    ensures counters { IfOk result (λ r. IfSome r (λ f. length f.coefs ≡ counters)) }
{
    match operand(counters, done, args, 0) {
        Some(f) => multiple(alloc, f, -1),
        None => Ok(None),
    }
}

/// The sum of the first two operands.
pub fn sum_of_operands(
    alloc: Global,
    counters: usize,
    done: &[Option<Form>],
    args: &[u32],
) -> Result<Option<Form>, AllocError>
    requires { HaveCounters counters done.now }
    ensures form { IfOk result (λ r. r ≡ of_both sum_form (operand done.now args.now 0) (operand done.now args.now 1)) }
    ensures counters { IfOk result (λ r. IfSome r (λ f. length f.coefs ≡ counters)) }
{
    let Some(f) = operand(counters, done, args, 0) else {
        return Ok(None);
    };
    let Some(g) = operand(counters, done, args, 1) else {
        return Ok(None);
    };
    sum(alloc, f, g)
}

/// The first operand less the second.
pub fn difference_of_operands(
    alloc: Global,
    counters: usize,
    done: &[Option<Form>],
    args: &[u32],
) -> Result<Option<Form>, AllocError>
    requires { HaveCounters counters done.now }
    ensures form { IfOk result (λ r. r ≡ of_both difference_form (operand done.now args.now 0) (operand done.now args.now 1)) }
    ensures counters { IfOk result (λ r. IfSome r (λ f. length f.coefs ≡ counters)) }
{
    let Some(f) = operand(counters, done, args, 0) else {
        return Ok(None);
    };
    let Some(g) = operand(counters, done, args, 1) else {
        return Ok(None);
    };
    difference(alloc, f, g)
}

/// The product of the first two operands, where one of them is constant.
pub fn product_of_operands(
    alloc: Global,
    counters: usize,
    done: &[Option<Form>],
    args: &[u32],
) -> Result<Option<Form>, AllocError>
    requires { HaveCounters counters done.now }
    ensures form { IfOk result (λ r. r ≡ of_both product_form (operand done.now args.now 0) (operand done.now args.now 1)) }
    ensures counters { IfOk result (λ r. IfSome r (λ f. length f.coefs ≡ counters)) }
{
    let Some(f) = operand(counters, done, args, 0) else {
        return Ok(None);
    };
    let Some(g) = operand(counters, done, args, 1) else {
        return Ok(None);
    };
    product(alloc, f, g)
}

fn product(alloc: Global, f: &Form, g: &Form) -> Result<Option<Form>, AllocError>
    requires { length f.now.coefs ≡ length g.now.coefs }
    ensures form { IfOk result (λ r. r ≡ product_form f.now g.now) }
    ensures counters { IfOk result (λ r. IfSome r (λ h. length h.coefs ≡ length f.now.coefs)) }
{
    if is_constant(f) {
        multiple_by(alloc, g, f)
    } else if is_constant(g) {
        multiple_by(alloc, f, g)
    } else {
        Ok(None)
    }
}

fn multiple_by(alloc: Global, a: &Form, by: &Form) -> Result<Option<Form>, AllocError>
    ensures form { IfOk result (λ r. r ≡ multiple_form a.now by.now.constant) }
    ensures counters { IfOk result (λ r. IfSome r (λ f. length f.coefs ≡ length a.now.coefs)) }
{
    multiple(alloc, a, by.constant)
}
