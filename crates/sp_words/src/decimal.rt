ghost use Rattle.std.specs.Prelude.{◌≡◌, ◌≢◌, ℕ, ◌+◌, ◌-◌, ◌*◌, ◌/◌, ◌^◌, ◌<◌, ◌≤◌, ◌↔◌, if◌then◌else◌, Bool, List, [], ◌∷◌, length, ◌++◌, map, string_bytes, Some, IsSome, IfSome, IsTrue, IfOk, OnOk};
ghost use Rattle.sp_words.specs.Decimal.{AreDigits, digits_number, decimal_value, digits_after_point, text_of, whole_part, fraction_digits};
ghost use Rattle.sp_words.specs.NumberText.{IsNumberText, IsExactly, ReadsAs};
ghost use Rattle.sp_words.specs.Laws.{IsInRange};
ghost use Rattle.sp_words.specs.declared.types.Ty.{Ty};
ghost use Rattle.sp_words.specs.WholeNumbers.{with_sign};
ghost use Rattle.sp_words.specs.Words.{IsWord, has_sign, value_of};

use crate::NoMemory;
use crate::types::Ty;
use crate::words::{is_negative, mask, value, word_of};
use std::alloc::Global;

/// The digits after a point, times `2 ^ frac`: rounded down, or up where `up` is set.
fn fraction(frac: u8, up: bool, digits: &[u8]) -> u128
    requires in_a_word { frac ≤ 64 }
    requires digits { AreDigits digits.now }
    ensures value { result ≡ (digits_number digits.now * 2 ^ frac + (if up then 10 ^ length digits.now - 1 else 0)) / 10 ^ length digits.now }
    ensures at_most_one { result ≤ 2 ^ frac }
{
    match digits {
        [] => 0,
        [first, rest @ ..] => {
            let below = fraction(frac, up, rest);
            ((u128::from(*first) << frac) + below + if up { 9 } else { 0 }) / 10
        }
    }
}

/// Whether the number with this sign and absolute value is a value of the type.
fn is_value(ty: Ty, negative: bool, magnitude: u128) -> bool
    ensures { IsTrue result ↔ IsInRange ty (with_sign negative magnitude) }
{
    if !ty.signed() {
        return magnitude <= if negative { 0 } else { u128::from(mask(ty)) };
    }
    let half: u128 = 1 << (ty.width() - 1);
    if negative {
        magnitude <= half
    } else {
        magnitude < half
    }
}

/// The word of the number `whole.digits` with its sign, rounded down to what the type can hold; `None`
/// where what is left is outside of the type. A digit is a number from 0 to 9.
pub fn of_decimal(ty: Ty, negative: bool, whole: u128, digits: &[u8]) -> Option<u64>
    requires few { length digits.now ≤ 64 }
    requires digits { AreDigits digits.now }
    ensures exists { IsSome result ↔ IsInRange ty (decimal_value ty negative whole digits.now) }
    ensures is_word { IfSome result (λ word. IsWord ty word) }
    ensures value { IfSome result (λ word. value_of ty word ≡ decimal_value ty negative whole digits.now) }

    // a word that is printed as a text of these parts, whichever it is, is the result
    ensures printed { (word : ℕ) → IsWord ty word → IsNumberText (text_of ty word) negative whole digits.now → result ≡ Some word }
{
    let frac = ty.frac();
    let below = fraction(frac, negative, digits);
    let scaled = whole.checked_mul(1 << frac)?;
    let magnitude = scaled.checked_add(below)?;
    if is_value(ty, negative, magnitude) {
        Some(word_of(ty, negative, magnitude))
    } else {
        None
    }
}

/// Appends the digits after the point of `numerator / 2 ^ frac`, without trailing zeros.
fn push_digits(text: &mut String, frac: u8, numerator: u128) -> Result<(), NoMemory>
    requires in_a_word { frac ≤ 64 }
    requires below_one { numerator < 2 ^ frac }
    ensures { OnOk result (string_bytes text.new ≡ string_bytes text.old ++ map (λ digit. 48 + digit) (digits_after_point frac numerator)) }
{
    if numerator == 0 {
        return Ok(());
    }
    let place = frac - 1;
    let tenfold = 5 * numerator;
    let digit = (tenfold >> place) as u8;
    text.push(char::from(b'0' + digit))?;
    push_digits(text, place, tenfold % (1 << place))
}

/// The number that the word means, exactly: a `-` where it is negative, its whole part, and where it has
/// a fraction a point and its digits.
pub fn value_text(alloc: Global, ty: Ty, word: u64) -> Result<String, NoMemory>
    requires { IsWord ty word }
    ensures { IfOk result (λ text. string_bytes text ≡ text_of ty word) }
{
    let magnitude = value(ty, word).unsigned_abs();
    let frac = ty.frac();
    let whole = magnitude >> frac;
    let numerator = magnitude % (1 << frac);
    let mut text = String::new(alloc);
    if is_negative(ty, word) {
        text.push('-')?;
    }
    write!(text, "{whole}")?;
    if numerator != 0 {
        text.push('.')?;
        push_digits(&mut text, frac, numerator)?;
    }
    Ok(text)
}

/// The text of a word is a number text, is read in one way, and what is read is exactly the number that the
/// word means, from which `of_decimal` makes the word. The function does nothing: what it ensures is the law.
pub fn texts_read_back()
    ensures one_reading { (bytes : List ℕ) (n m : Bool) (v w : ℕ) (ds es : List ℕ) → IsNumberText bytes n v ds → IsNumberText bytes m w es → (n ≡ m) × (v ≡ w) × (ds ≡ es) }
    ensures printed { (ty : Ty) (word : ℕ) → IsWord ty word → IsNumberText (text_of ty word) (has_sign ty word) (whole_part ty word) (fraction_digits ty word) }
    ensures exact { (ty : Ty) (word : ℕ) (negative : Bool) (whole : ℕ) (digits : List ℕ) → IsWord ty word → IsNumberText (text_of ty word) negative whole digits → IsExactly ty word negative whole digits }
    ensures read { (ty : Ty) (word : ℕ) (negative : Bool) (whole : ℕ) (digits : List ℕ) → IsWord ty word → IsNumberText (text_of ty word) negative whole digits → ReadsAs ty word negative whole digits }
    ensures no_last_zero { (ty : Ty) (word : ℕ) (digits : List ℕ) → fraction_digits ty word ≢ digits ++ 0 ∷ [] }
    ensures one_word { (ty : Ty) (v w : ℕ) → IsWord ty v → IsWord ty w → value_of ty v ≡ value_of ty w → v ≡ w }
{}
