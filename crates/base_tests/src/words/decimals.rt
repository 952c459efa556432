ghost use Rattle.std.specs.Prelude.{◌↔◌, IsTrue};
ghost use Rattle.sp_words.specs.Decimal.{AreDigits};

use sp_words::{FixTy, Ty, is_word, of_decimal, value_text};
use std::process::Abort;
use std::test::Fail;

fn bits(rt: &impl Abort, field: Option<&str>) -> u8 {
    field
        .expect(rt, "a field")
        .parse()
        .ok()
        .expect(rt, "a number of bits")
}

fn type_of(rt: &impl Abort, kind: &str, whole: Option<&str>, frac: Option<&str>) -> Ty {
    let made = FixTy::new(kind == "s", bits(rt, whole), bits(rt, frac));
    let fix = made.expect(rt, "a type of 1 to 64 bits");
    if kind == "b" { Ty::Bit } else { Ty::Fix(fix) }
}

fn are_digits(digits: &[u8]) -> bool
    ensures { IsTrue result ↔ AreDigits digits.now }
{
    digits.iter().all(|digit| *digit < 10)
}

/// The word of a text such as `-2.25`.
fn word_of_text(rt: &impl Abort, ty: Ty, text: &str) -> Option<u64> {
    let (negative, number) = match text.strip_prefix("-") {
        Some(number) => (true, number),
        None => (false, text),
    };
    let (whole, tail) = number.split_once(".").unwrap_or((number, ""));
    let whole: u128 = whole.parse().ok().expect(rt, "a whole part");
    let mut digits = [0; 64];
    let bytes = tail.as_bytes();
    assert!(rt; bytes.len() <= 64);
    for (to, byte) in digits.iter_mut().zip(bytes) {
        *to = byte.wrapping_sub(b'0');
    }
    let digits = &digits[..bytes.len()];
    assert!(rt; are_digits(digits));
    of_decimal(ty, negative, whole, digits)
}

// A type by sign, whole and fraction bits (`b` is a bit), a number, and its word at the type, by fractions
// without a bound.
const DECIMALS: &str = "\
s 32 0 4.75 4\n\
s 32 0 -0.5 4294967295\n\
s 32 0 2147483647 2147483647\n\
s 32 0 2147483648 none\n\
s 32 0 2147483647.999 2147483647\n\
s 32 0 -2147483648 2147483648\n\
s 32 0 -2147483648.0 2147483648\n\
s 32 0 -2147483648.01 none\n\
s 32 0 -0 0\n\
s 32 0 0 0\n\
s 32 0 -0.0 0\n\
s 32 0 2147483647.5 2147483647\n\
s 8 8 1.5 384\n\
s 8 8 -2.25 64960\n\
s 8 8 0.00390625 1\n\
s 8 8 -0.00390625 65535\n\
s 8 8 0.00390624 0\n\
s 8 8 -0.00390624 65535\n\
s 8 8 -0.00390626 65534\n\
s 8 8 127.99609375 32767\n\
s 8 8 127.99999999 32767\n\
s 8 8 128 none\n\
s 8 8 -128 32768\n\
s 8 8 -128.001 none\n\
s 8 8 -3.375 64672\n\
s 8 8 -007.50 63616\n\
s 8 8 -0.0 0\n\
u 64 0 18446744073709551615 18446744073709551615\n\
u 64 0 18446744073709551616 none\n\
u 64 0 18446744073709551615.9 18446744073709551615\n\
u 64 0 -0.1 none\n\
u 64 0 -1 none\n\
u 64 0 340282366920938463463374607431768211455 none\n\
u 64 0 -340282366920938463463374607431768211455 none\n\
u 0 64 0.9999999999999999999457898913757247782996273599565029144287109375 18446744073709551615\n\
u 0 64 0.9999999999999999999457898913757247782996273599565029144287109374 18446744073709551614\n\
u 0 64 0.9999999999999999999999999999999999999999999999999999999999999999 18446744073709551615\n\
u 0 64 0.0000000000000000000000000000000000000000000000000000000000000001 0\n\
u 0 64 1.0 none\n\
u 0 64 -0.0000000000000000000000000000000000000000000000000000000000000001 none\n\
u 0 64 0.5 9223372036854775808\n\
u 0 64 -0 0\n\
u 0 64 0.0000000000000000000542101086242752217003726400434970855712890625 1\n\
u 0 64 0.0000000000000000000542101086242752217003726400434970855712890624 0\n\
s 0 64 0.4999999999999999999 9223372036854775806\n\
s 0 64 0.5 none\n\
s 0 64 -0.5 9223372036854775808\n\
s 0 64 -0.50000000000000000001 none\n\
s 0 64 -0.0000000000000000000000000000000000000000000000000000000000000001 18446744073709551615\n\
s 0 64 340282366920938463463374607431768211455.5 none\n\
s 64 0 9223372036854775807.9 9223372036854775807\n\
s 64 0 9223372036854775808 none\n\
s 64 0 -9223372036854775808 9223372036854775808\n\
s 64 0 -9223372036854775808.1 none\n\
s 1 0 0 0\n\
s 1 0 -0.5 1\n\
s 1 0 -1 1\n\
s 1 0 0.5 0\n\
b 1 0 0 0\n\
b 1 0 1 1\n\
b 1 0 0.5 0\n\
b 1 0 1.99 1\n\
b 1 0 2 none\n\
b 1 0 -0.0 0\n\
b 1 0 -0.1 none\n\
";

#[test]
fn decimals_round_down_to_words(rt: HostRuntime) {
    for line in DECIMALS.lines() {
        let mut fields = line.split(' ');
        let kind = fields.next().expect(&rt, "a kind");
        let ty = type_of(&rt, kind, fields.next(), fields.next());
        let text = fields.next().expect(&rt, "a number");
        let want = fields.next().expect(&rt, "a word").parse::<u64>().ok();
        assert_eq!(rt; word_of_text(&rt, ty, text), want, "at {line}");
    }
}

// A type, a word of it and the number that it means.
const TEXTS: &str = "\
s 8 8 64672 -3.375\n\
s 8 8 384 1.5\n\
s 8 8 1 0.00390625\n\
s 8 8 32768 -128\n\
s 8 8 32767 127.99609375\n\
s 8 8 65535 -0.00390625\n\
s 8 8 256 1\n\
s 8 8 0 0\n\
u 64 0 18446744073709551615 18446744073709551615\n\
s 64 0 9223372036854775808 -9223372036854775808\n\
s 32 0 4294967295 -1\n\
s 32 0 2147483647 2147483647\n\
u 0 64 18446744073709551615 0.9999999999999999999457898913757247782996273599565029144287109375\n\
u 0 64 1 0.0000000000000000000542101086242752217003726400434970855712890625\n\
u 0 64 9223372036854775808 0.5\n\
s 0 64 9223372036854775808 -0.5\n\
s 0 64 18446744073709551615 -0.0000000000000000000542101086242752217003726400434970855712890625\n\
b 1 0 0 0\n\
b 1 0 1 1\n\
s 1 0 1 -1\n\
u 4 4 16 1\n\
u 4 4 26 1.625\n\
s 16 16 4294934528 -0.5\n\
s 1 63 9223372036854775808 -1\n\
u 32 32 42949672960 10\n\
";

#[test]
fn words_print_as_exact_decimals_and_read_back(rt: HostRuntime) -> Result<(), Fail> {
    let alloc = rt.alloc();
    for line in TEXTS.lines() {
        let mut fields = line.split(' ');
        let kind = fields.next().expect(&rt, "a kind");
        let ty = type_of(&rt, kind, fields.next(), fields.next());
        let field = fields.next().expect(&rt, "a word");
        let word: u64 = field.parse().ok().expect(&rt, "a word");
        assert!(rt; is_word(ty, word));
        let text = value_text(alloc, ty, word)?;
        assert_eq!(rt; Some(text.as_str()), fields.next(), "at {line}");
        assert_eq!(rt;
            word_of_text(&rt, ty, text.as_str()),
            Some(word),
            "at {line}"
        );
    }
    Ok(())
}
