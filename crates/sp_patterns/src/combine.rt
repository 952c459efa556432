//! Forms of forms: `None` where a number leaves 64 bits, or where the symbols don't come to one with the factor 1.
ghost use Rattle.std.specs.Prelude.{◌≡◌, length, pos, IfOk, IfSome};
ghost use Rattle.std.specs.List.{list_all};
ghost use Rattle.std.specs.Ordering.{int_eq};
ghost use Rattle.sp_patterns.specs.Forms.{sum_form, difference_form, multiple_form, is_constant};

use sp_affine::{Form, FormError, add, minus, scale};
use std::alloc::{AllocError, Global};

/// The sum of two forms.
pub fn sum(alloc: Global, a: &Form, b: &Form) -> Result<Option<Form>, AllocError>
    requires { length a.now.coefs ≡ length b.now.coefs }
    ensures form { IfOk result (λ r. r ≡ sum_form a.now b.now) }
    ensures counters { IfOk result (λ r. IfSome r (λ f. length f.coefs ≡ length a.now.coefs)) }
{
    match add(alloc, a, b) {
        Ok(f) => Ok(Some(f)),
        Err(FormError::Wide) => Ok(None),
        Err(FormError::Symbols) => Ok(None),
        Err(FormError::Memory) => Err(AllocError),
    }
}

/// The difference of two forms.
pub fn difference(alloc: Global, a: &Form, b: &Form) -> Result<Option<Form>, AllocError>
    requires { length a.now.coefs ≡ length b.now.coefs }
    ensures form { IfOk result (λ r. r ≡ difference_form a.now b.now) }
    ensures counters { IfOk result (λ r. IfSome r (λ f. length f.coefs ≡ length a.now.coefs)) }
{
    match minus(alloc, a, b) {
        Ok(f) => Ok(Some(f)),
        Err(FormError::Wide) => Ok(None),
        Err(FormError::Symbols) => Ok(None),
        Err(FormError::Memory) => Err(AllocError),
    }
}

/// A form times a number.
pub fn multiple(alloc: Global, a: &Form, by: i64) -> Result<Option<Form>, AllocError>
    ensures form { IfOk result (λ r. r ≡ multiple_form a.now by) }
    ensures counters { IfOk result (λ r. IfSome r (λ f. length f.coefs ≡ length a.now.coefs)) }
{
    match scale(alloc, a, by) {
        Ok(f) => Ok(Some(f)),
        Err(FormError::Wide) => Ok(None),
        Err(FormError::Symbols) => Ok(None),
        Err(FormError::Memory) => Err(AllocError),
    }
}

/// Whether a form has no counter and no symbol.
pub fn is_constant(f: &Form) -> bool
    ensures { result ≡ is_constant f.now }
{
    are_zero(&f.coefs) && f.symbol.is_none()
}

fn are_zero(coefs: &[i64]) -> bool
    ensures { result ≡ list_all (int_eq (pos 0)) coefs.now }
{
    let [c, rest @ ..] = coefs else {
        return true;
    };
    *c == 0 && are_zero(rest)
}
