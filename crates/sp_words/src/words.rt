ghost use Rattle.std.specs.Prelude.{◌≡◌, ◌+◌, ◌%◌, ◌^◌, ◌↔◌, IsTrue};
ghost use Rattle.sp_words.specs.Types.{width_of};
ghost use Rattle.sp_words.specs.WholeNumbers.{modulo, with_sign};
ghost use Rattle.sp_words.specs.Words.{IsWord, has_sign, value_of, wrap};

use crate::types::Ty;

/// The greatest word of the type.
pub(crate) fn mask(ty: Ty) -> u64
    ensures { result + 1 ≡ 2 ^ width_of ty }
{
    u64::MAX >> (64 - ty.width())
}

/// Whether the number is a word of the type.
pub fn is_word(ty: Ty, number: u64) -> bool
    ensures { IsTrue result ↔ IsWord ty number }
{
    number <= mask(ty)
}

/// The lowest bits of the number, as many as the type has.
pub(crate) fn low_bits(ty: Ty, number: u128) -> u64
    ensures { result ≡ number % 2 ^ width_of ty }
{
    (number & u128::from(mask(ty))) as u64
}

/// Whether the word has a sign bit that is set.
pub(crate) fn is_negative(ty: Ty, word: u64) -> bool
    ensures { result ≡ has_sign ty word }
{
    ty.signed() && word >= 1 << (ty.width() - 1)
}

/// What the word stands for, in two's complement of 128 bits.
pub(crate) fn extended(ty: Ty, word: u64) -> u128
    requires { IsWord ty word }
    ensures { result ≡ modulo (value_of ty word) (2 ^ 128) }
{
    if is_negative(ty, word) {
        u128::from(word) + (u128::MAX - u128::from(mask(ty)))
    } else {
        u128::from(word)
    }
}

/// What the word stands for.
pub(crate) fn value(ty: Ty, word: u64) -> i128
    requires { IsWord ty word }
    ensures { result ≡ value_of ty word }
{
    if is_negative(ty, word) {
        i128::from(word) - i128::from(mask(ty)) - 1
    } else {
        i128::from(word)
    }
}

/// The word of the number with this sign and absolute value.
pub(crate) fn word_of(ty: Ty, negative: bool, magnitude: u128) -> u64
    ensures { result ≡ wrap ty (with_sign negative magnitude) }
{
    low_bits(
        ty,
        if negative {
            magnitude.wrapping_neg()
        } else {
            magnitude
        },
    )
}
