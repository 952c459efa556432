//! Euclid's algorithm.
ghost use Rattle.std.specs.Int.{IsGcd};

/// The greatest common divisor; that of 0 and a number is the number.
pub fn gcd(a: u32, b: u32) -> u32
    ensures { IsGcd a b result }
{
    let mut x = a;
    let mut y = b;
    while y != 0 {
        let rest = x % y;
        x = y;
        y = rest;
    }
    x
}
