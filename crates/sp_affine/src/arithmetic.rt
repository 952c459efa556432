//! Sums, differences and multiples of forms.
ghost use Rattle.std.specs.Prelude.{◌≡◌, ◌↔◌, ℕ, ℤ, List, length, IfOk, OnOk, ◌+ℤ◌, ◌-ℤ◌, ◌*ℤ◌};
ghost use Rattle.sp_affine.specs.Affine.{value_of};
ghost use Rattle.sp_affine.specs.Combination.{Equals, HasOneSymbol, IsNarrow, sum_of, difference_of, multiple_of};

use crate::coefs::{
    all_differences_fit, all_multiples_fit, all_sums_fit, differences_of, multiples_of, sums_of,
};
use crate::form::{Form, FormError};
use crate::symbol::{symbol_of_difference, symbol_of_multiple, symbol_of_sum};
use std::alloc::Global;

/// The sum of two forms over the same counters.
///
/// `Wide` goes before `Symbols`.
pub fn add(alloc: Global, a: &Form, b: &Form) -> Result<Form, FormError>
    requires { length a.now.coefs ≡ length b.now.coefs }

    // The coefficients, the constant and the symbol, and so the value wherever it is asked for.
    ensures form { IfOk result (λ f. Equals f (sum_of a.now b.now)) }
    ensures value { IfOk result (λ f. (counters : List ℤ) (symbols : ℕ → ℤ) →
        value_of f counters symbols ≡ value_of a.now counters symbols +ℤ value_of b.now counters symbols) }
    ensures narrow { OnOk result (IsNarrow (sum_of a.now b.now)) }

    ensures wide { (result ≡ Err FormError.Wide) ↔ ¬ IsNarrow (sum_of a.now b.now) }
    ensures symbols { (result ≡ Err FormError.Symbols) ↔
        (IsNarrow (sum_of a.now b.now) × ¬ HasOneSymbol (sum_of a.now b.now).factor) }
{
    if !all_sums_fit(&a.coefs, &b.coefs) {
        return Err(FormError::Wide);
    }
    let constant = a.constant.checked_add(b.constant).ok_or(FormError::Wide)?;
    let symbol = symbol_of_sum(a.symbol, b.symbol)?;
    let coefs = sums_of(alloc, &a.coefs, &b.coefs)?;
    Ok(Form {
        coefs,
        constant,
        symbol,
    })
}

/// The difference of two forms over the same counters.
///
/// `Wide` goes before `Symbols`.
pub fn minus(alloc: Global, a: &Form, b: &Form) -> Result<Form, FormError>
    requires { length a.now.coefs ≡ length b.now.coefs }

    // The coefficients, the constant and the symbol, and so the value wherever it is asked for.
    ensures form { IfOk result (λ f. Equals f (difference_of a.now b.now)) }
    ensures value { IfOk result (λ f. (counters : List ℤ) (symbols : ℕ → ℤ) →
        value_of f counters symbols ≡ value_of a.now counters symbols -ℤ value_of b.now counters symbols) }
    ensures narrow { OnOk result (IsNarrow (difference_of a.now b.now)) }

    ensures wide { (result ≡ Err FormError.Wide) ↔ ¬ IsNarrow (difference_of a.now b.now) }
    ensures symbols { (result ≡ Err FormError.Symbols) ↔
        (IsNarrow (difference_of a.now b.now) × ¬ HasOneSymbol (difference_of a.now b.now).factor) }
{
    if !all_differences_fit(&a.coefs, &b.coefs) {
        return Err(FormError::Wide);
    }
    let constant = a.constant.checked_sub(b.constant).ok_or(FormError::Wide)?;
    let symbol = symbol_of_difference(a.symbol, b.symbol)?;
    let coefs = differences_of(alloc, &a.coefs, &b.coefs)?;
    Ok(Form {
        coefs,
        constant,
        symbol,
    })
}

/// A form times a number.
///
/// `Wide` goes before `Symbols`.
pub fn scale(alloc: Global, a: &Form, by: i64) -> Result<Form, FormError>
    // The coefficients, the constant and the symbol, and so the value wherever it is asked for.
    ensures form { IfOk result (λ f. Equals f (multiple_of a.now by)) }
    ensures value { IfOk result (λ f. (counters : List ℤ) (symbols : ℕ → ℤ) →
        value_of f counters symbols ≡ value_of a.now counters symbols *ℤ by) }
    ensures narrow { OnOk result (IsNarrow (multiple_of a.now by)) }

    ensures wide { (result ≡ Err FormError.Wide) ↔ ¬ IsNarrow (multiple_of a.now by) }
    ensures symbols { (result ≡ Err FormError.Symbols) ↔
        (IsNarrow (multiple_of a.now by) × ¬ HasOneSymbol (multiple_of a.now by).factor) }
{
    if !all_multiples_fit(&a.coefs, by) {
        return Err(FormError::Wide);
    }
    let constant = a.constant.checked_mul(by).ok_or(FormError::Wide)?;
    let symbol = symbol_of_multiple(a.symbol, by)?;
    let coefs = multiples_of(alloc, &a.coefs, by)?;
    Ok(Form {
        coefs,
        constant,
        symbol,
    })
}
