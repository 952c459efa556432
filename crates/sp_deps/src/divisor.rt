//! Euclid's algorithm.
ghost use Rattle.std.specs.Prelude.{◌≡◌, ◌<◌, ℕ};
ghost use Rattle.sp_deps.specs.Sums.{gcd};

/// The greatest common divisor; that of 0 and a number is the number.
pub fn gcd(a: u128, b: u128) -> u128
    ensures value { result ≡ gcd a b }
    ensures small { (n : ℕ) → a < n → b < n → result < n }
{
    let mut x = a;
    let mut y = b;
    while y != 0 {
        let rest = x % y;
        x = y;
        y = rest;
    }
    x
}
