//! The place of an access within the period, but for what all accesses of its group share.
ghost use Rattle.std.specs.Prelude.{◌≡◌, ◌≤◌, ◌<◌, ◌*◌, pos, length};
ghost use Rattle.std.specs.Int.{int_rem_euclid};
ghost use Rattle.std.specs.List.{All};
ghost use Rattle.sp_bank.specs.Separation.{constants, weighted_sum, residue_of};

use crate::scheme::Scheme;
use sp_affine::Form;

/// `alpha·c` modulo the period, where c are the constants of an access.
pub fn residue(s: &Scheme, access: &[Form]) -> u32
    requires { length access.now ≡ length s.now.alpha }
    ensures value { pos result ≡ residue_of s.now (constants access.now) }
    ensures below { result < s.now.banks * s.now.block }
{
    weighted_residue(s.alpha.as_slice(), access, s.banks * s.block)
}

/// The weighted sum of an access's constants, modulo the period.
pub fn weighted_residue(alpha: &[u32], access: &[Form], period: u32) -> u32
    requires rank { length access.now ≡ length alpha.now }
    requires few { length alpha.now ≤ 3 }
    requires weights { All (λ a. a < 32) alpha.now }
    requires some { 0 < period }
    requires small { period ≤ 128 }
    ensures value { pos result ≡ int_rem_euclid (weighted_sum alpha.now (constants access.now)) (pos period) }
    ensures below { result < period }
{
    let mut sum = 0;
    for (i, form) in access.iter().enumerate() {
        sum += alpha[i] * remainder(form.constant, period);
    }
    sum % period
}

/// A constant modulo the period.
pub fn remainder(constant: i64, period: u32) -> u32
    requires some { 0 < period }
    requires small { period ≤ 128 }
    ensures value { pos result ≡ int_rem_euclid constant (pos period) }
    ensures below { result < period }
{
    constant.rem_euclid(i64::from(period)) as u32
}
