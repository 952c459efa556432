//! What the texts and values of a setup say at a type.
ghost use Rattle.std.specs.Prelude.{◌≡◌, ◌≤◌, pos, int_lt, unsigned_abs, [], length, IfOk};
ghost use Rattle.sp_words.specs.Decimal.{AreDigits};
ghost use Rattle.toml.specs.View.{view};
ghost use Rattle.sp_setup.specs.Number.{number_parts};
ghost use Rattle.sp_setup.specs.Reading.{number_reading, parts_reading, text_reading, boolean_reading, data_reading};

use crate::number::{digits, number_text, whole_number};
use sp_words::{Ty, of_decimal, values_are_a_range};
use std::alloc::{AllocError, Global};
use toml::Value;

// The most digits after the point of a number text that is in range.
const MOST_DIGITS: usize = 64;

// What a text or a value says at a type.
#[derive(Clone, Copy, Debug, PartialEq, Eq)]
pub(crate) enum Reading {
    Word(u64),
    OutOfRange,
    NoNumber,
}

// The number `whole.digits` with its sign.
fn read_number(ty: Ty, negative: bool, whole: u128, digits: &[u8]) -> Reading
    requires few { length digits.now ≤ 64 }
    requires digits { AreDigits digits.now }
    ensures { result ≡ number_reading ty negative whole digits.now }
{
    // a word is known by its value
    values_are_a_range();
    match of_decimal(ty, negative, whole, digits) {
        Some(word) => Reading::Word(word),
        None => Reading::OutOfRange,
    }
}

// A number text.
fn read_number_text(alloc: Global, ty: Ty, bytes: &[u8]) -> Result<Reading, AllocError>
    ensures { IfOk result (λ reading. reading ≡ parts_reading ty (number_parts bytes.now)) }
{
    let Some(text) = number_text(bytes) else {
        return Ok(Reading::NoNumber);
    };
    let Some(whole) = whole_number(text.whole) else {
        return Ok(Reading::OutOfRange);
    };
    if text.fraction.len() > MOST_DIGITS {
        return Ok(Reading::OutOfRange);
    }
    let digits = digits(alloc, text.fraction)?;
    Ok(read_number(ty, text.negative, whole, &digits))
}

// A text at the type of bits.
#[tactic(auto, unfolding(crate::specs::Reading::text_reading))]
fn read_bit_text(alloc: Global, bytes: &[u8]) -> Result<Reading, AllocError>
    ensures { IfOk result (λ reading. reading ≡ text_reading Ty.Bit bytes.now) }
{
    if bytes == b"true".as_slice() {
        Ok(Reading::Word(1))
    } else if bytes == b"false".as_slice() {
        Ok(Reading::Word(0))
    } else {
        read_number_text(alloc, Ty::Bit, bytes)
    }
}

// A text: a number text, and for a bit also `true` and `false`.
#[tactic(auto, unfolding(crate::specs::Reading::text_reading))]
pub(crate) fn read_text(alloc: Global, ty: Ty, bytes: &[u8]) -> Result<Reading, AllocError>
    ensures { IfOk result (λ reading. reading ≡ text_reading ty bytes.now) }
{
    match ty {
        Ty::Bit => read_bit_text(alloc, bytes),
        Ty::Fix(_) => read_number_text(alloc, ty, bytes),
    }
}

// A boolean, which is a word of a bit alone.
fn read_boolean(ty: Ty, value: bool) -> Reading
    ensures { result ≡ boolean_reading ty value }
{
    match ty {
        Ty::Bit => Reading::Word(u64::from(value)),
        Ty::Fix(_) => Reading::NoNumber,
    }
}

fn read_integer(ty: Ty, number: i64) -> Reading
    ensures { result ≡ number_reading ty (int_lt number (pos 0)) (unsigned_abs number) [] }
{
    read_number(ty, number < 0, u128::from(number.unsigned_abs()), &[])
}

fn read_str(alloc: Global, ty: Ty, text: &str) -> Result<Reading, AllocError>
    ensures { IfOk result (λ reading. reading ≡ text_reading ty text.now) }
{
    read_text(alloc, ty, text.as_bytes())
}

// A value of a setup: an integer, a boolean or a text.
pub(crate) fn read_value(alloc: Global, ty: Ty, value: &Value) -> Result<Reading, AllocError>
    ensures { IfOk result (λ reading. reading ≡ data_reading ty (view value.now)) }
{
    if let Some(number) = value.as_integer() {
        return Ok(read_integer(ty, number));
    }
    if let Some(truth) = value.as_bool() {
        return Ok(read_boolean(ty, truth));
    }
    match value.as_str() {
        Some(text) => read_str(alloc, ty, text),
        None => Ok(Reading::NoNumber),
    }
}
