//! Coefficients, number by number.
ghost use Rattle.std.specs.Prelude.{◌≡◌, ◌↔◌, IsTrue, IfOk, length, FitsSigned, ◌+ℤ◌, ◌-ℤ◌, ◌*ℤ◌};
ghost use Rattle.std.specs.Int.{w64};
ghost use Rattle.std.specs.List.{All, zip};
ghost use Rattle.sp_affine.specs.Combination.{sums, differences, multiples};

use std::alloc::{AllocError, Global};

/// Whether every one of the sums fits 64 bits with a sign.
pub fn all_sums_fit(a: &[i64], b: &[i64]) -> bool
    requires { length a.now ≡ length b.now }
    ensures { IsTrue result ↔ All (FitsSigned w64) (sums a.now b.now) }
{
    for (i, x) in a.iter().enumerate() {
        if x.checked_add(b[i]).is_none() {
            return false;
        }
    }
    true
}

/// The sums, as a new vector.
pub fn sums_of(alloc: Global, a: &[i64], b: &[i64]) -> Result<Vec<i64>, AllocError>
    requires same_length { length a.now ≡ length b.now }
    requires fit { All (FitsSigned w64) (sums a.now b.now) }
    ensures { IfOk result (λ v. v.items ≡ sums a.now b.now) }
{
    let mut made = Vec::with_capacity(alloc, a.len())?;
    for (i, x) in a.iter().enumerate() {
        made.push(*x + b[i])?;
    }
    Ok(made)
}

/// Whether every one of the differences fits 64 bits with a sign.
pub fn all_differences_fit(a: &[i64], b: &[i64]) -> bool
    requires { length a.now ≡ length b.now }
    ensures { IsTrue result ↔ All (FitsSigned w64) (differences a.now b.now) }
{
    for (i, x) in a.iter().enumerate() {
        if x.checked_sub(b[i]).is_none() {
            return false;
        }
    }
    true
}

/// The differences, as a new vector.
pub fn differences_of(alloc: Global, a: &[i64], b: &[i64]) -> Result<Vec<i64>, AllocError>
    requires same_length { length a.now ≡ length b.now }
    requires fit { All (FitsSigned w64) (differences a.now b.now) }
    ensures { IfOk result (λ v. v.items ≡ differences a.now b.now) }
{
    let mut made = Vec::with_capacity(alloc, a.len())?;
    for (i, x) in a.iter().enumerate() {
        made.push(*x - b[i])?;
    }
    Ok(made)
}

/// Whether every one of the multiples fits 64 bits with a sign.
pub fn all_multiples_fit(a: &[i64], by: i64) -> bool
    ensures { IsTrue result ↔ All (FitsSigned w64) (multiples a.now by) }
{
    for x in a {
        if x.checked_mul(by).is_none() {
            return false;
        }
    }
    true
}

/// The multiples, as a new vector.
pub fn multiples_of(alloc: Global, a: &[i64], by: i64) -> Result<Vec<i64>, AllocError>
    requires fit { All (FitsSigned w64) (multiples a.now by) }
    ensures { IfOk result (λ v. v.items ≡ multiples a.now by) }
{
    let mut made = Vec::with_capacity(alloc, a.len())?;
    for x in a {
        made.push(*x * by)?;
    }
    Ok(made)
}
