//! The words of numbers as they are written.

ghost use Rattle.std.specs.Prelude.{◌≡◌, nat_lt};
ghost use Rattle.std.specs.List.{list_all};
ghost use Rattle.sp_reader.specs.Plain.{plain_digits};
ghost use Rattle.sp_types.specs.Literal as rule;
ghost use Rattle.sp_typed.specs.Expressions as spec;

use sp_reader::Digits;
use sp_words::{Ty, of_decimal};

fn are_all_digits(digits: &[u8]) -> bool
    ensures { result ≡ list_all (λ digit. nat_lt digit 10) digits.now }
{
    digits.iter().all(|digit| *digit < 10)
}

/// Whether the digits after a point are at most 64, and digits.
fn are_digits(digits: &[u8]) -> bool
    ensures { result ≡ rule.are_digits digits.now }
{
    digits.len() <= 64 && are_all_digits(digits)
}

/// Whether they say that there is no fraction.
fn is_whole(digits: &[u8]) -> bool
    ensures { result ≡ rule.is_whole digits.now }
{
    digits.iter().all(|digit| *digit == 0)
}

/// Whether a fraction of these digits may stand at a type.
fn may_stand(ty: Ty, digits: &[u8]) -> bool
    ensures { result ≡ rule.may_stand ty digits.now }
{
    is_whole(digits) || ty.frac() != 0
}

/// The word of a number of the type, if it has one.
fn literal_word(ty: Ty, number: &Digits) -> Option<u64>
    ensures { result ≡ rule.literal_word ty (plain_digits number.now) }
{
    match ty {
        Ty::Bit => None,
        Ty::Fix(_) => {
            if !are_digits(&number.digits) {
                return None;
            }
            if !may_stand(ty, &number.digits) {
                return None;
            }
            of_decimal(ty, number.negative, number.whole, &number.digits)
        }
    }
}

/// The word of a number at a type, rounded down.
pub fn number_word(ty: Ty, number: &Digits) -> u64
    ensures { result ≡ spec.number_word ty (plain_digits number.now) }
{
    match literal_word(ty, number) {
        Some(word) => word,
        None => 0,
    }
}

/// The word of a truth value.
pub fn truth_word(value: bool) -> u64
    ensures { result ≡ spec.truth_word value }
{
    if value { 1 } else { 0 }
}
