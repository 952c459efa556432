//! Where an element of a memory stands.
ghost use Rattle.std.specs.Prelude.{◌≡◌, ℕ, ◌+◌, ◌*◌, ◌^◌, ◌<◌, ◌≤◌, List, length};
ghost use Rattle.std.specs.List.{All, remove};
ghost use Rattle.sp_bank.specs.Places.{weighted, product_of, IsInside, row_major, bank, offset, bank_length};

use crate::scheme::Scheme;

/// The bank of element `x` of a memory with these dimensions.
pub fn bank_of(s: &Scheme, dims: &[u32], x: &[u32]) -> u32
    requires rank { length dims.now ≡ length s.now.alpha }
    requires inside { IsInside dims.now x.now }
    requires small { product_of dims.now ≤ 4294967295 }
    ensures { result ≡ bank s.now x.now }
{
    (weighted_place(s.alpha.as_slice(), x) / u64::from(s.block) % u64::from(s.banks)) as u32
}

/// The place of element `x` in its bank.
pub fn offset_of(s: &Scheme, dims: &[u32], x: &[u32]) -> u64
    requires rank { length dims.now ≡ length s.now.alpha }
    requires inside { IsInside dims.now x.now }
    requires small { product_of dims.now ≤ 4294967295 }
    ensures place { result ≡ offset s.now dims.now x.now }
    ensures below { result < bank_length s.now dims.now }

    // No other element has this bank and this offset.
    ensures distinct { (y : List ℕ) → IsInside dims.now y →
        bank s.now y ≡ bank s.now x.now → offset s.now dims.now y ≡ result → y ≡ x.now }
{
    let hinge = usize::from(s.hinge);
    let period = u64::from(s.banks * s.block);
    let block = u64::from(s.block);
    let periods = u64::from(dims[hinge]).div_ceil(period);
    let lead = lead_of(dims, x, hinge);
    let row = lead * periods + u64::from(x[hinge]) / period;
    row * block + weighted_place(s.alpha.as_slice(), x) % block
}

// The row-major number of the indices other than the hinge's.
fn lead_of(dims: &[u32], x: &[u32], hinge: usize) -> u64
    requires hinge { hinge < length dims.now }
    requires same_length { length x.now ≡ length dims.now }
    requires inside { IsInside dims.now x.now }
    requires small { product_of dims.now ≤ 4294967295 }
    ensures value { result ≡ row_major (remove dims.now hinge) (remove x.now hinge) }
    ensures below { result < product_of (remove dims.now hinge) }
{
    let before = row_major_from(0, &dims[..hinge], &x[..hinge]);
    row_major_from(before, &dims[hinge + 1..], &x[hinge + 1..])
}

// Each index times its weight, summed.
fn weighted_place(alpha: &[u32], x: &[u32]) -> u64
    requires rank { length x.now ≡ length alpha.now }
    requires few { length alpha.now ≤ 3 }
    requires weights { All (λ a. a < 32) alpha.now }
    ensures { result ≡ weighted alpha.now x.now }
{
    let mut sum = 0u64;
    for (i, weight) in alpha.iter().enumerate() {
        sum += u64::from(*weight) * u64::from(x[i]);
    }
    sum
}

// The row-major number of an element, after `start` whole memories of this size.
fn row_major_from(start: u64, dims: &[u32], x: &[u32]) -> u64
    requires inside { IsInside dims.now x.now }
    requires small { (start + 1) * product_of dims.now ≤ 2 ^ 32 }
    ensures { result ≡ start * product_of dims.now + row_major dims.now x.now }
{
    let mut number = start;
    for (i, size) in dims.iter().enumerate() {
        number = number * u64::from(*size) + u64::from(x[i]);
    }
    number
}
