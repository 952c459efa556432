//! The words of numbers as they are written.

ghost use Rattle.std.specs.Prelude.{◌≡◌, nat_lt};
ghost use Rattle.std.specs.List.{list_all};
ghost use Rattle.sp_reader.specs.Plain.{plain_digits};
ghost use Rattle.sp_types.specs.Literal as spec;

use sp_reader::Digits;
use sp_words::{Ty, of_decimal};

fn are_all_digits(digits: &[u8]) -> bool
    ensures { result ≡ list_all (λ digit. nat_lt digit 10) digits.now }
{
    digits.iter().all(|digit| *digit < 10)
}

/// Whether the digits after a point are at most 64, and digits.
fn are_digits(digits: &[u8]) -> bool
    ensures { result ≡ spec.are_digits digits.now }
{
    digits.len() <= 64 && are_all_digits(digits)
}

/// Whether they say that there is no fraction.
fn is_whole(digits: &[u8]) -> bool
    ensures { result ≡ spec.is_whole digits.now }
{
    digits.iter().all(|digit| *digit == 0)
}

/// Whether a fraction of these digits may stand at a type.
fn may_stand(ty: Ty, digits: &[u8]) -> bool
    ensures { result ≡ spec.may_stand ty digits.now }
{
    is_whole(digits) || ty.frac() != 0
}

/// The word of a literal of the type: none of `Bit`, none of a number that is out of the type's range, and
/// none of a number with a fraction where the type has no bits for one.
#[tactic(auto, unfolding(crate::specs::Literal::literal_word))]
pub(crate) fn literal_word(ty: Ty, number: &Digits) -> Option<u64>
    ensures { result ≡ spec.literal_word ty (plain_digits number.now) }
{
    match ty {
        Ty::Bit => None,
        Ty::Fix(_) => {
            if !are_digits(&number.digits) {
                return None;
            }
            if !may_stand(ty, &number.digits) {
                return None;
            }
            of_decimal(ty, number.negative, number.whole, &number.digits)
        }
    }
}
