//! The values that a form takes while its counters go over ranges.
ghost use Rattle.std.specs.Prelude.{◌≡◌, ◌↔◌, ◌≤◌, length, IsNone, IsSome, IfSome, IsTrue};
ghost use Rattle.std.specs.List.{All};
ghost use Rattle.sp_affine.specs.Interval.{IsCounterRange, IsRange, least_product, greatest_product};

use crate::form::Form;

const GREATEST_END: i64 = 1 << 52;

/// The least and the greatest value of a form, where each counter goes over its range, both ends
/// included.
///
/// `None` where the form has a symbol. At most 1,024 coefficients of 64 bits times ends of 53 bits
/// stay within `i128`.
pub fn interval(form: &Form, ranges: &[(i64, i64)]) -> Option<(i128, i128)>
    requires one_each { length ranges.now ≡ length form.now.coefs }
    requires few { length ranges.now ≤ 1024 }
    requires in_order { All IsCounterRange ranges.now }
    ensures symbol { IsNone result ↔ IsSome form.now.symbol }
    ensures range { IfSome result (λ r. IsRange form.now ranges.now r.0 r.1) }
{
    if form.symbol.is_some() {
        return None;
    }
    let mut low = i128::from(form.constant);
    let mut high = low;
    for (i, coef) in form.coefs.iter().enumerate() {
        let (least, greatest) = product_range(*coef, ranges[i]);
        low += least;
        high += greatest;
    }
    Some((low, high))
}

/// Whether each range goes up and has both its ends from -2^52 to 2^52, as `interval` asks.
pub fn are_counter_ranges(ranges: &[(i64, i64)]) -> bool
    ensures { IsTrue result ↔ All IsCounterRange ranges.now }
{
    for range in ranges {
        if !is_counter_range(*range) {
            return false;
        }
    }
    true
}

fn is_counter_range(range: (i64, i64)) -> bool
    ensures { IsTrue result ↔ IsCounterRange range }
{
    range.0 <= range.1 && -GREATEST_END <= range.0 && range.1 <= GREATEST_END
}

fn product_range(coef: i64, range: (i64, i64)) -> (i128, i128)
    requires { IsCounterRange range }
    ensures least { result.0 ≡ least_product coef range }
    ensures greatest { result.1 ≡ greatest_product coef range }
{
    let factor = i128::from(coef);
    let at_first = factor * i128::from(range.0);
    let at_last = factor * i128::from(range.1);
    if coef < 0 {
        (at_last, at_first)
    } else {
        (at_first, at_last)
    }
}
