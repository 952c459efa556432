//! Number texts: an optional `-`, digits, and optionally `.` and digits.
ghost use Rattle.std.specs.Prelude.{◌≡◌, ◌<◌, ◌+◌, ◌-◌, ◌*◌, ◌^◌, ◌≤◌, MatchOption, IfOk, option_map, length, IfSome, true};
ghost use Rattle.std.specs.List.{list_all, prefix_len};
ghost use Rattle.sp_words.specs.Decimal.{AreDigits, digits_number};
ghost use Rattle.sp_setup.specs.Number.{is_digit, digits_of, are_digits, fraction_part, unsigned_parts, number_parts};
ghost use Rattle.sp_setup.specs.NumberText.{parts_of};

use std::alloc::{AllocError, Global};

// The parts of a number text. `whole` and `fraction` are the bytes of digits.
#[derive(Clone, Copy)]
pub(crate) struct NumberText<'a> {
    pub(crate) negative: bool,
    pub(crate) whole: &'a [u8],
    pub(crate) fraction: &'a [u8],
}

// How many digits stand at the front.
fn digit_count(bytes: &[u8]) -> usize
    ensures front { result ≡ prefix_len is_digit bytes.now }
    ensures inside { result ≤ length bytes.now }
{
    bytes
        .iter()
        .take_while(|byte| byte.is_ascii_digit())
        .count()
}

fn are_all_digits(bytes: &[u8]) -> bool
    ensures { result ≡ list_all is_digit bytes.now }
{
    bytes.iter().all(|byte| byte.is_ascii_digit())
}

// At least one digit, and nothing else.
fn is_digits(bytes: &[u8]) -> bool
    ensures test { result ≡ are_digits bytes.now }
    ensures digits { result ≡ true → AreDigits (digits_of bytes.now) }
{
    !bytes.is_empty() && are_all_digits(bytes)
}

// The digits after a point, where nothing stands there or a point and at least one digit.
fn fraction(bytes: &[u8]) -> Option<&[u8]>
    ensures digits { IfSome result (λ digits. AreDigits (digits_of digits.now)) }
    ensures part { option_map (λ digits. digits_of digits.now) result ≡ fraction_part bytes.now }
{
    match bytes.split_first() {
        None => Some(bytes),
        Some((first, rest)) => {
            if *first == b'.' && is_digits(rest) {
                Some(rest)
            } else {
                None
            }
        }
    }
}

// The parts of what follows a sign.
fn unsigned(negative: bool, bytes: &[u8]) -> Option<NumberText<'_>>
    ensures digits { IfSome result (λ t. AreDigits (digits_of t.fraction.now)) }
    ensures parts { option_map parts_of result ≡ unsigned_parts negative bytes.now }
{
    let count = digit_count(bytes);
    if count == 0 {
        return None;
    }
    match fraction(&bytes[count..]) {
        Some(fraction) => Some(NumberText {
            negative,
            whole: &bytes[..count],
            fraction,
        }),
        None => None,
    }
}

// The parts of a number text; `None` where the bytes are none.
pub(crate) fn number_text(bytes: &[u8]) -> Option<NumberText<'_>>
    ensures digits { IfSome result (λ t. AreDigits (digits_of t.fraction.now)) }
    ensures parts { option_map parts_of result ≡ number_parts bytes.now }
{
    match bytes.split_first() {
        None => None,
        Some((first, rest)) => {
            if *first == b'-' {
                unsigned(true, rest)
            } else {
                unsigned(false, bytes)
            }
        }
    }
}

// The number with one more digit, which the byte writes; `None` where it is 2 ^ 128 or more.
fn with_digit(number: u128, byte: u8) -> Option<u128>
    ensures fits { IfSome result (λ n. n < 2 ^ 128) }
    ensures number { MatchOption result (2 ^ 128 ≤ number * 10 + (byte - 48)) (λ n. n ≡ number * 10 + (byte - 48)) }
{
    match number.checked_mul(10) {
        Some(tens) => tens.checked_add(u128::from(byte.saturating_sub(b'0'))),
        None => None,
    }
}

// The number that bytes of digits write; `None` where it is 2 ^ 128 or more.
pub(crate) fn whole_number(bytes: &[u8]) -> Option<u128>
    ensures fits { IfSome result (λ n. n < 2 ^ 128) }
    ensures number { MatchOption result (2 ^ 128 ≤ digits_number (digits_of bytes.now)) (λ n. n ≡ digits_number (digits_of bytes.now)) }
{
    let mut number: u128 = 0;
    for byte in bytes {
        number = with_digit(number, *byte)?;
    }
    Some(number)
}

// The digits that bytes write.
pub(crate) fn digits(alloc: Global, bytes: &[u8]) -> Result<Vec<u8>, AllocError>
    ensures { IfOk result (λ digits. digits.items ≡ digits_of bytes.now) }
{
    bytes
        .iter()
        .map(|byte| byte.saturating_sub(b'0'))
        .collect(alloc)
}
