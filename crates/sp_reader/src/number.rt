//! The numbers that tokens spell.

ghost use Rattle.std.specs.Prelude.{◌≡◌, ◌≤◌, ◌<◌, IfOk, length, true};
ghost use Rattle.sp_reader.specs.Numbers as spec;

use crate::class::{Class, past};
use std::alloc::{AllocError, Global};

/// At most so many digits stand after a number's point.
const MOST_DIGITS: usize = 64;

/// The greatest width of a type's part; a greater one is kept as one more.
const MOST_WIDTH: u8 = 64;

#[tactic(auto, unfolding(crate::specs::Numbers::digit))]
fn digit(b: u8) -> u8
    ensures { result ≡ spec.digit b }
{
    match b {
        b'0'..=b'9' => b - b'0',
        b'a'..=b'f' => b - b'a' + 10,
        b'A'..=b'F' => b - b'A' + 10,
        _ => 0,
    }
}

fn with_digit(value: u128, radix: u8, b: u8) -> Option<u128>
    ensures { result ≡ spec.with_digit radix value b }
{
    value
        .checked_mul(u128::from(radix))?
        .checked_add(u128::from(digit(b)))
}

fn value(mut digits: &[u8], radix: u8) -> Option<u128>
    ensures { result ≡ spec.number_from radix 0 digits.entry.now }
{
    let mut value: u128 = 0;
    while let [b, rest @ ..] = digits {
        value = with_digit(value, radix, *b)?;
        digits = rest;
    }
    Some(value)
}

/// Where the point stands, or the length.
fn point(text: &[u8]) -> usize
    ensures value { result ≡ spec.point text.now }
    ensures within { result ≤ length text.now }
{
    past(Class::Whole, text, 0)
}

/// The digits after the point.
#[tactic(auto, unfolding(crate::specs::Numbers::fraction))]
pub fn fraction(text: &[u8]) -> &[u8]
    ensures { result.now ≡ spec.fraction text.now }
{
    match &text[point(text)..] {
        [] => &[],
        [_, digits @ ..] => digits,
    }
}

fn is_hex(text: &[u8]) -> bool
    ensures value { result ≡ spec.is_hex text.now }
    ensures long { result ≡ true → 2 ≤ length text.now }
{
    text.len() >= 2 && text[0] == b'0' && text[1] == b'x'
}

/// The whole part of a number, or `None` where it is `2^128` or more.
#[tactic(auto, unfolding(crate::specs::Numbers::whole))]
pub fn whole(text: &[u8]) -> Option<u128>
    ensures { result ≡ spec.whole text.now }
{
    if is_hex(text) {
        value(&text[2..], 16)
    } else {
        value(&text[..point(text)], 10)
    }
}

/// Whether the number has a point.
#[tactic(auto, unfolding(crate::specs::Numbers::has_point))]
pub fn has_point(text: &[u8]) -> bool
    ensures { result ≡ spec.has_point text.now }
{
    !fraction(text).is_empty()
}

/// Whether the whole part is `2^128` or more, or more than 64 digits stand after the point.
#[tactic(auto, unfolding(crate::specs::Numbers::is_too_wide))]
pub fn is_too_wide(text: &[u8]) -> bool
    ensures { result ≡ spec.is_too_wide text.now }
{
    whole(text).is_none() || fraction(text).len() > MOST_DIGITS
}

/// The digits after the point, each from 0 to 9.
pub fn fraction_digits(alloc: Global, text: &[u8]) -> Result<Vec<u8>, AllocError>
    ensures { IfOk result (λ ds. ds.items ≡ spec.fraction_digits text.now) }
{
    fraction(text).iter().map(|b| digit(*b)).collect(alloc)
}

/// The width of a width token's text, 65 where it is more than 64.
#[tactic(auto, unfolding(crate::specs::Numbers::width))]
pub fn width(text: &[u8]) -> u8
    ensures { result ≡ spec.width text.now }
{
    let digits = match text {
        [] => text,
        [_, digits @ ..] => digits,
    };
    match value(digits, 10) {
        Some(value) if value <= 64 => value as u8,
        _ => MOST_WIDTH + 1,
    }
}
