//! Which values a sum of terms may have.
ghost use Rattle.std.specs.Prelude.{◌≡◌, ◌<◌, ◌≤◌, ◌+◌, ◌*◌, ◌^◌, ℕ, ℤ, pos, neg_ℤ, ◌+ℤ◌, ◌*ℤ◌, unsigned_abs};
ghost use Rattle.std.specs.Int.{w128, saturate_signed};
ghost use Rattle.sp_deps.specs.Bounds.{IsEndWithin, IsWithin};
ghost use Rattle.sp_deps.specs.Sums.{is_multiple, is_from, is_up_to, may_be};

use crate::sum::Sum;

/// Whether a number may be a value of the sum.
pub fn may_be(sum: &Sum, z: &i128) -> bool
    ensures { result ≡ may_be sum.now z.now }
{
    is_multiple(sum.divisor, z) && is_from(sum.least, z) && is_up_to(sum.greatest, z)
}

fn is_multiple(divisor: u128, z: &i128) -> bool
    ensures { result ≡ is_multiple divisor z.now }
{
    let size = z.unsigned_abs();
    if divisor == 0 {
        size == 0
    } else {
        size % divisor == 0
    }
}

fn is_from(least: Option<i128>, z: &i128) -> bool
    ensures { result ≡ is_from least z.now }
{
    match least {
        Some(x) => !(*z < x),
        None => true,
    }
}

fn is_up_to(greatest: Option<i128>, z: &i128) -> bool
    ensures { result ≡ is_up_to greatest z.now }
{
    match greatest {
        Some(x) => !(x < *z),
        None => true,
    }
}

/// Whether the sum may be the opposite of `start` and `t` times `step`, which may be past 128 bits.
pub fn may_be_opposite(sum: &Sum, start: &i128, step: &i128, t: u64) -> bool
    requires divisor { sum.now.divisor < 2 ^ 64 }
    requires within { IsWithin 2050 sum.now }
    requires start { unsigned_abs start.now < 2 ^ 64 }
    requires step { unsigned_abs step.now < 2 ^ 127 }
    ensures { result ≡ may_be sum.now (neg_ℤ (start.now +ℤ (step.now *ℤ pos t))) }
{
    is_multiple_of_both(sum.divisor, start, step, t)
        && is_from_opposite(sum.least, start, step, t)
        && is_up_to_opposite(sum.greatest, start, step, t)
}

fn is_multiple_of_both(divisor: u128, start: &i128, step: &i128, t: u64) -> bool
    requires divisor { divisor < 2 ^ 64 }
    requires start { unsigned_abs start.now < 2 ^ 64 }
    requires step { unsigned_abs step.now < 2 ^ 127 }
    ensures { result ≡ is_multiple divisor (neg_ℤ (start.now +ℤ (step.now *ℤ pos t))) }
{
    if divisor == 0 {
        return is_opposite(start, step, t);
    }
    let rest = remainder(start, divisor);
    let step_rest = remainder(step, divisor);
    (rest + step_rest * u128::from(t)) % divisor == 0
}

fn remainder(z: &i128, divisor: u128) -> u128
    requires some { 0 < divisor }
    requires divisor { divisor < 2 ^ 64 }
    ensures below { result < divisor }
    ensures value { (q : ℤ) × (z.now ≡ (q *ℤ pos divisor) +ℤ pos result) }
{
    let rest = z.unsigned_abs() % divisor;
    if *z >= 0 {
        return rest;
    }
    if rest == 0 {
        return 0;
    }
    divisor - rest
}

// The opposite of `t` times `step`, or the end of 128 bits that is nearest to it.
fn opposite_of_steps(step: &i128, t: u64) -> i128
    requires { unsigned_abs step.now < 2 ^ 127 }
    ensures { result ≡ saturate_signed w128 (neg_ℤ (step.now *ℤ pos t)) }
{
    (-*step).saturating_mul(i128::from(t))
}

fn sum(x: &i128, start: &i128) -> i128
    requires end { unsigned_abs x.now ≤ 2050 * 2 ^ 115 }
    requires start { unsigned_abs start.now < 2 ^ 64 }
    ensures { result ≡ x.now +ℤ start.now }
{
    *x + *start
}

fn is_opposite(start: &i128, step: &i128, t: u64) -> bool
    requires start { unsigned_abs start.now < 2 ^ 64 }
    requires step { unsigned_abs step.now < 2 ^ 127 }
    ensures { result ≡ is_multiple 0 (neg_ℤ (start.now +ℤ (step.now *ℤ pos t))) }
{
    *start == opposite_of_steps(step, t)
}

fn is_from_opposite(least: Option<i128>, start: &i128, step: &i128, t: u64) -> bool
    requires within { IsEndWithin 2050 least }
    requires start { unsigned_abs start.now < 2 ^ 64 }
    requires step { unsigned_abs step.now < 2 ^ 127 }
    ensures { result ≡ is_from least (neg_ℤ (start.now +ℤ (step.now *ℤ pos t))) }
{
    match least {
        Some(x) => !(opposite_of_steps(step, t) < sum(&x, start)),
        None => true,
    }
}

fn is_up_to_opposite(greatest: Option<i128>, start: &i128, step: &i128, t: u64) -> bool
    requires within { IsEndWithin 2050 greatest }
    requires start { unsigned_abs start.now < 2 ^ 64 }
    requires step { unsigned_abs step.now < 2 ^ 127 }
    ensures { result ≡ is_up_to greatest (neg_ℤ (start.now +ℤ (step.now *ℤ pos t))) }
{
    match greatest {
        Some(x) => !(sum(&x, start) < opposite_of_steps(step, t)),
        None => true,
    }
}
