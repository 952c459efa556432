ghost use Rattle.std.specs.Prelude.{◌≡◌, ◌<◌};
ghost use Rattle.sp_words.specs.Words.{IsWord, word_add, word_sub, word_mul, word_div, word_rem, word_and, word_or, word_xor, word_min, word_max, word_shl, word_shr, word_not, word_lt, word_eq, word_cast};

use crate::types::Ty;
use crate::words::{extended, low_bits, mask, value, word_of};

/// `a + b`, wrapped.
pub fn add(ty: Ty, a: u64, b: u64) -> u64
    requires left { IsWord ty a }
    requires right { IsWord ty b }
    ensures value { result ≡ word_add ty a b }
    ensures is_word { IsWord ty result }
{
    a.wrapping_add(b) & mask(ty)
}

/// `a - b`, wrapped.
pub fn sub(ty: Ty, a: u64, b: u64) -> u64
    requires left { IsWord ty a }
    requires right { IsWord ty b }
    ensures value { result ≡ word_sub ty a b }
    ensures is_word { IsWord ty result }
{
    a.wrapping_sub(b) & mask(ty)
}

/// The exact product over `2 ^ frac`, rounded down, then wrapped.
pub fn mul(ty: Ty, a: u64, b: u64) -> u64
    requires left { IsWord ty a }
    requires right { IsWord ty b }
    ensures value { result ≡ word_mul ty a b }
    ensures is_word { IsWord ty result }
{
    let product = extended(ty, a).wrapping_mul(extended(ty, b));
    low_bits(ty, product >> ty.frac())
}

/// `a * 2 ^ frac` over `b`, rounded toward zero, then wrapped; 0 where `b` is 0.
pub fn div(ty: Ty, a: u64, b: u64) -> u64
    requires left { IsWord ty a }
    requires right { IsWord ty b }
    ensures value { result ≡ word_div ty a b }
    ensures is_word { IsWord ty result }
{
    let (dividend, divisor) = (value(ty, a), value(ty, b));
    if divisor == 0 {
        return 0;
    }
    let quotient = (dividend.unsigned_abs() << ty.frac()) / divisor.unsigned_abs();
    word_of(ty, (dividend < 0) != (divisor < 0), quotient)
}

/// What `b` leaves of `a`, with the sign of `a`; `a` where `b` is 0.
pub fn rem(ty: Ty, a: u64, b: u64) -> u64
    requires left { IsWord ty a }
    requires right { IsWord ty b }
    ensures value { result ≡ word_rem ty a b }
    ensures is_word { IsWord ty result }
{
    let (dividend, divisor) = (value(ty, a), value(ty, b));
    if divisor == 0 {
        return a;
    }
    let remainder = dividend.unsigned_abs() % divisor.unsigned_abs();
    word_of(ty, dividend < 0, remainder)
}

/// Bit by bit, whether both bits are set.
#[tactic(auto, unfolding(crate::specs::Words::word_and))]
pub fn and(ty: Ty, a: u64, b: u64) -> u64
    requires left { IsWord ty a }
    requires right { IsWord ty b }
    ensures value { result ≡ word_and ty a b }
    ensures is_word { IsWord ty result }
{
    a & b
}

/// Bit by bit, whether one of the bits is set.
#[tactic(auto, unfolding(crate::specs::Words::word_or))]
pub fn or(ty: Ty, a: u64, b: u64) -> u64
    requires left { IsWord ty a }
    requires right { IsWord ty b }
    ensures value { result ≡ word_or ty a b }
    ensures is_word { IsWord ty result }
{
    a | b
}

/// Bit by bit, whether the bits differ.
#[tactic(auto, unfolding(crate::specs::Words::word_xor))]
pub fn xor(ty: Ty, a: u64, b: u64) -> u64
    requires left { IsWord ty a }
    requires right { IsWord ty b }
    ensures value { result ≡ word_xor ty a b }
    ensures is_word { IsWord ty result }
{
    a ^ b
}

/// The operand of the smaller value.
#[tactic(auto, unfolding(crate::specs::Words::word_min))]
pub fn min(ty: Ty, a: u64, b: u64) -> u64
    requires left { IsWord ty a }
    requires right { IsWord ty b }
    ensures value { result ≡ word_min ty a b }
    ensures is_word { IsWord ty result }
{
    if lt(ty, b, a) { b } else { a }
}

/// The operand of the greater value.
#[tactic(auto, unfolding(crate::specs::Words::word_max))]
pub fn max(ty: Ty, a: u64, b: u64) -> u64
    requires left { IsWord ty a }
    requires right { IsWord ty b }
    ensures value { result ≡ word_max ty a b }
    ensures is_word { IsWord ty result }
{
    if lt(ty, a, b) { b } else { a }
}

/// `a * 2 ^ by`, wrapped.
pub fn shl(ty: Ty, a: u64, by: u8) -> u64
    requires operand { IsWord ty a }
    requires distance { by < 64 }
    ensures value { result ≡ word_shl ty a by }
    ensures is_word { IsWord ty result }
{
    low_bits(ty, u128::from(a) << by)
}

/// `a` over `2 ^ by`, rounded down.
pub fn shr(ty: Ty, a: u64, by: u8) -> u64
    requires operand { IsWord ty a }
    requires distance { by < 64 }
    ensures value { result ≡ word_shr ty a by }
    ensures is_word { IsWord ty result }
{
    low_bits(ty, extended(ty, a) >> by)
}

/// Every bit turned.
#[tactic(auto, unfolding(crate::specs::Words::word_not))]
pub fn not(ty: Ty, a: u64) -> u64
    requires { IsWord ty a }
    ensures value { result ≡ word_not ty a }
    ensures is_word { IsWord ty result }
{
    !a & mask(ty)
}

/// Whether the value of `a` is below that of `b`.
#[tactic(auto, unfolding(crate::specs::Words::word_lt))]
pub fn lt(ty: Ty, a: u64, b: u64) -> bool
    requires left { IsWord ty a }
    requires right { IsWord ty b }
    ensures { result ≡ word_lt ty a b }
{
    value(ty, a) < value(ty, b)
}

/// Whether the words are the same.
#[tactic(auto, unfolding(crate::specs::Words::word_eq))]
pub fn eq(ty: Ty, a: u64, b: u64) -> bool
    requires left { IsWord ty a }
    requires right { IsWord ty b }
    ensures { result ≡ word_eq ty a b }
{
    a == b
}

/// The number that `a` means at the type `from`, as a word of the type `to`: rounded down, then wrapped.
pub fn cast(from: Ty, to: Ty, a: u64) -> u64
    requires { IsWord from a }
    ensures value { result ≡ word_cast from to a }
    ensures is_word { IsWord to result }
{
    low_bits(to, (extended(from, a) << to.frac()) >> from.frac())
}
