//! What is known of a sum of terms, of which each is a coefficient times a number from a range.
ghost use Rattle.std.specs.Prelude.{◌≡◌, ◌<◌, ◌+◌, ◌^◌, ℕ, unsigned_abs};
ghost use Rattle.sp_deps.specs.Bounds.{IsEndWithin, IsWithin, IsTermWithin};
ghost use Rattle.sp_deps.specs.Sums.{times, least_of, greatest_of, add_ends, plus, nothing};

use crate::divisor::gcd;

/// The values that a number takes: its least and its greatest one, where they are known.
#[derive(Clone, Copy, Debug)]
pub struct Range {
    pub least: Option<i64>,
    pub greatest: Option<i64>,
}

/// A coefficient times a number from a range.
#[derive(Clone, Copy, Debug)]
pub struct Term {
    pub coef: i128,
    pub range: Range,
}

/// A number that divides all values of a sum, and its least and its greatest value.
#[derive(Clone, Copy, Debug)]
pub struct Sum {
    pub divisor: u128,
    pub least: Option<i128>,
    pub greatest: Option<i128>,
}

impl Sum {
    /// The sum of no term.
    pub fn empty() -> Sum
        ensures sum { result ≡ nothing }
        ensures within { IsWithin 0 result }
    {
        Sum {
            divisor: 0,
            least: Some(0),
            greatest: Some(0),
        }
    }

    /// The sum with one term more.
    pub fn plus(&self, term: &Term) -> Sum
        requires term { IsTermWithin 2 term.now.coef term.now.range }
        requires room { IsWithin 4000 self.now }
        ensures sum { result ≡ plus term.now self.now }
        ensures narrow { unsigned_abs term.now.coef < 2 ^ 64 → self.now.divisor < 2 ^ 64 → result.divisor < 2 ^ 64 }
        ensures within { (n k : ℕ) → IsTermWithin k term.now.coef term.now.range → IsWithin n self.now → IsWithin (n + k) result }
    {
        let coef = term.coef;
        Sum {
            divisor: gcd(coef.unsigned_abs(), self.divisor),
            least: add_ends(least_of(coef, &term.range), self.least),
            greatest: add_ends(greatest_of(coef, &term.range), self.greatest),
        }
    }
}

fn times(coef: i128, end: Option<i64>) -> Option<i128>
    requires { IsEndWithin 2 (times coef end) }
    ensures { result ≡ times coef end }
{
    match end {
        Some(x) => Some(coef * i128::from(x)),
        None => None,
    }
}

fn least_of(coef: i128, range: &Range) -> Option<i128>
    requires { IsEndWithin 2 (least_of coef range.now) }
    ensures { result ≡ least_of coef range.now }
{
    if coef > 0 {
        times(coef, range.least)
    } else if coef < 0 {
        times(coef, range.greatest)
    } else {
        Some(0)
    }
}

fn greatest_of(coef: i128, range: &Range) -> Option<i128>
    requires { IsEndWithin 2 (greatest_of coef range.now) }
    ensures { result ≡ greatest_of coef range.now }
{
    if coef > 0 {
        times(coef, range.greatest)
    } else if coef < 0 {
        times(coef, range.least)
    } else {
        Some(0)
    }
}

fn add_ends(a: Option<i128>, b: Option<i128>) -> Option<i128>
    requires first { IsEndWithin 2 a }
    requires second { IsEndWithin 4000 b }
    ensures { result ≡ add_ends a b }
{
    match (a, b) {
        (Some(x), Some(y)) => Some(x + y),
        _ => None,
    }
}
