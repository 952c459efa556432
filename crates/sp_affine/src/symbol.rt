//! The symbol that is left of two forms' symbols.
ghost use Rattle.std.specs.Prelude.{◌≡◌, IfOk, IfErr};
ghost use Rattle.sp_affine.specs.Combination.{HasFactors, HasOneSymbol, factors_of_sum, factors_of_difference, factors_of_multiple};

use crate::form::FormError;

pub fn symbol_of_sum(a: Option<u32>, b: Option<u32>) -> Result<Option<u32>, FormError>
    ensures symbol { IfOk result (λ s. HasFactors s (factors_of_sum a b)) }
    ensures none { IfErr result (λ e. (e ≡ FormError.Symbols) × ¬ HasOneSymbol (factors_of_sum a b)) }
{
    match (a, b) {
        (symbol, None) | (None, symbol) => Ok(symbol),
        (Some(_), Some(_)) => Err(FormError::Symbols),
    }
}

pub fn symbol_of_difference(a: Option<u32>, b: Option<u32>) -> Result<Option<u32>, FormError>
    ensures symbol { IfOk result (λ s. HasFactors s (factors_of_difference a b)) }
    ensures none { IfErr result (λ e. (e ≡ FormError.Symbols) × ¬ HasOneSymbol (factors_of_difference a b)) }
{
    if b.is_none() {
        Ok(a)
    } else if a == b {
        Ok(None)
    } else {
        Err(FormError::Symbols)
    }
}

pub fn symbol_of_multiple(a: Option<u32>, by: i64) -> Result<Option<u32>, FormError>
    ensures symbol { IfOk result (λ s. HasFactors s (factors_of_multiple a by)) }
    ensures none { IfErr result (λ e. (e ≡ FormError.Symbols) × ¬ HasOneSymbol (factors_of_multiple a by)) }
{
    match (a, by) {
        (None, _) | (Some(_), 0) => Ok(None),
        (Some(_), 1) => Ok(a),
        (Some(_), _) => Err(FormError::Symbols),
    }
}
