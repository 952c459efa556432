ghost use Rattle.std.specs.Prelude.{◌<◌};

mod decimals;
mod memories;
mod names;

use sp_words::{
    FixTy, Input, PortDecl, Ports, Ty, add, and, cast, div, eq, fits, is_word, lt, max, min, mul,
    not, or, rem, shl, shr, sub, xor,
};
use std::alloc::{AllocError, Global};
use std::process::Abort;
use std::test::Fail;

fn number(rt: &impl Abort, field: Option<&str>) -> u64 {
    field
        .expect(rt, "a field")
        .parse()
        .ok()
        .expect(rt, "a number")
}

fn bits(rt: &impl Abort, field: Option<&str>) -> u8 {
    field
        .expect(rt, "a field")
        .parse()
        .ok()
        .expect(rt, "a number of bits")
}

fn fix(rt: &impl Abort, sign: Option<&str>, whole: Option<&str>, frac: Option<&str>) -> Ty {
    let signed = sign.expect(rt, "a sign") == "s";
    let made = FixTy::new(signed, bits(rt, whole), bits(rt, frac));
    Ty::Fix(made.expect(rt, "a type of 1 to 64 bits"))
}

fn distance(rt: &impl Abort, by: u64) -> u8
    ensures { result < 64 }
{
    assert!(rt; by < 64);
    by as u8
}

fn applied(rt: &impl Abort, operator: &str, ty: Ty, a: u64, b: u64) -> u64 {
    assert!(rt; is_word(ty, a));
    match operator {
        "shl" => return shl(ty, a, distance(rt, b)),
        "shr" => return shr(ty, a, distance(rt, b)),
        "not" => return not(ty, a),
        _ => {}
    }
    assert!(rt; is_word(ty, b));
    match operator {
        "add" => add(ty, a, b),
        "sub" => sub(ty, a, b),
        "mul" => mul(ty, a, b),
        "div" => div(ty, a, b),
        "rem" => rem(ty, a, b),
        "and" => and(ty, a, b),
        "or" => or(ty, a, b),
        "xor" => xor(ty, a, b),
        "min" => min(ty, a, b),
        "max" => max(ty, a, b),
        "lt" => u64::from(lt(ty, a, b)),
        _ => u64::from(eq(ty, a, b)),
    }
}

// An operator, its type by sign, whole and fraction bits, its operands and what it gives, by whole
// numbers without a bound.
const CASES: &str = "\
add s 0 8 255 128 127\n\
add s 8 0 126 128 254\n\
add u 8 8 32768 65535 32767\n\
add u 32 0 2147483648 0 2147483648\n\
add u 0 63 4611686018427387904 4611686018427387904 0\n\
add u 64 0 9223372036854775806 9223372036854775808 18446744073709551614\n\
add s 32 32 0 9223372036854775808 9223372036854775808\n\
add s 64 0 1 9223372036854775808 9223372036854775809\n\
sub u 4 4 128 128 0\n\
sub s 8 0 128 128 0\n\
sub u 32 0 0 0 0\n\
sub s 16 16 2147483648 4294967295 2147483649\n\
sub u 0 63 9223372036854775807 1 9223372036854775806\n\
sub s 63 0 9223372036854775807 9223372036854775807 0\n\
sub u 64 0 11237016286339364323 14992352371244199177 14691407988804716762\n\
sub s 0 64 18446744073709551615 18446744073709551615 0\n\
mul u 2 0 2 3 2\n\
mul u 4 4 128 255 248\n\
mul s 8 8 1 65535 65535\n\
mul s 8 8 384 64960 64672\n\
mul s 32 0 0 2147483646 0\n\
mul u 0 63 9223372036854775807 1 0\n\
mul s 31 32 4611686018427387904 0 0\n\
mul s 63 0 9223372036854775807 4611686018427387904 4611686018427387904\n\
mul u 64 0 18446744073709551615 9223372036854775808 9223372036854775808\n\
div s 8 0 128 0 0\n\
div s 8 0 128 255 128\n\
div u 8 8 65535 65535 256\n\
div u 32 0 2147483648 2147483648 1\n\
div s 16 16 4294967295 2147483648 0\n\
div u 0 64 9223372036854775808 9223372036854775808 0\n\
div u 64 0 9223372036854775808 0 0\n\
div s 0 64 9223372036854775808 0 0\n\
div s 32 32 9223372036854775808 0 0\n\
div s 64 0 3304711953916411950 8244260883661738655 0\n\
div s 64 0 9223372036854775808 0 0\n\
div s 64 0 9223372036854775808 18446744073709551615 9223372036854775808\n\
rem s 4 4 255 255 0\n\
rem s 8 0 128 0 128\n\
rem s 8 0 255 128 255\n\
rem u 8 8 60731 16206 12113\n\
rem u 32 0 2147483648 0 2147483648\n\
rem u 0 64 1 9223372036854775806 1\n\
rem u 64 0 9223372036854775808 0 9223372036854775808\n\
rem u 64 0 9223372036854775808 18446744073709551615 9223372036854775808\n\
rem s 0 64 9223372036854775808 0 9223372036854775808\n\
rem s 0 64 9223372036854775808 18446744073709551615 0\n\
rem s 64 0 9223372036854775808 0 9223372036854775808\n\
rem s 64 0 9223372036854775808 18446744073709551615 0\n\
rem s 64 0 18446744073709551615 1 0\n\
and s 1 0 1 0 0\n\
and u 8 8 32768 0 0\n\
and u 32 0 431280266 3208986388 419696640\n\
and s 16 16 4294967295 1 1\n\
and u 0 64 14348654997858728849 8082735597352486383 4620870456352735617\n\
and u 64 0 9223372036854775808 9223372036854775808 9223372036854775808\n\
and s 0 64 14580428470415130640 11864236809240977310 9223394029235077136\n\
and s 64 0 9223372036854775808 0 0\n\
or u 2 0 3 2 3\n\
or u 8 8 65535 1 65535\n\
or s 8 8 32768 32768 32768\n\
or s 32 0 4294967295 4294967295 4294967295\n\
or s 63 0 9223372036854775807 9223372036854775807 9223372036854775807\n\
or u 0 64 9223372036854775808 0 9223372036854775808\n\
or u 64 0 9223372036854775808 0 9223372036854775808\n\
or s 0 64 9223372036854775808 9223372036854775808 9223372036854775808\n\
xor u 1 0 1 1 0\n\
xor u 4 4 255 255 0\n\
xor s 0 8 128 255 127\n\
xor s 32 0 2147483648 2147483648 0\n\
xor u 0 63 4611686018427387904 9223372036854775807 4611686018427387903\n\
xor s 63 0 9223372036854775807 9223372036854775807 0\n\
xor u 64 0 18446744073709551615 9223372036854775808 9223372036854775807\n\
xor s 32 32 9223372036854775808 9223372036854775809 1\n\
min s 1 0 1 1 1\n\
min u 2 0 3 2 2\n\
min s 0 8 255 255 255\n\
min u 8 8 32768 65535 32768\n\
min s 31 32 4611686018427387904 9223372036854775807 4611686018427387904\n\
min u 0 64 18446744073709551615 1 1\n\
min u 64 0 9223372036854775808 9223372036854775808 9223372036854775808\n\
min s 64 0 18446744073709551615 18446744073709551615 18446744073709551615\n\
max s 1 0 1 1 1\n\
max u 8 8 65535 32768 65535\n\
max s 8 8 32768 32768 32768\n\
max u 32 0 2147483646 2147483647 2147483647\n\
max u 0 64 9223372036854775808 9223372036854775808 9223372036854775808\n\
max u 64 0 9223372036854775808 9223372036854775808 9223372036854775808\n\
max s 0 64 9223372036854775808 18446744073709551615 18446744073709551615\n\
max s 64 0 18446744073709551615 9223372036854775808 18446744073709551615\n\
shl u 2 0 3 2 0\n\
shl s 2 0 3 2 0\n\
shl u 4 4 255 1 254\n\
shl s 0 8 255 1 254\n\
shl u 0 63 4611686018427387904 0 4611686018427387904\n\
shl s 31 32 4611686018427387904 0 4611686018427387904\n\
shl u 64 0 9223372036854775809 63 9223372036854775808\n\
shl s 64 0 9223372036854775809 63 9223372036854775808\n\
shr s 1 0 1 1 1\n\
shr u 4 4 129 8 0\n\
shr s 4 4 255 1 255\n\
shr u 32 0 4294967295 31 1\n\
shr u 0 63 4611686018427387905 63 0\n\
shr u 64 0 18446744073709551615 1 9223372036854775807\n\
shr s 0 64 18446744073709551615 63 18446744073709551615\n\
shr s 64 0 9223372036854775808 0 9223372036854775808\n\
not u 2 0 3 0 0\n\
not u 4 4 255 0 0\n\
not s 8 0 233 0 22\n\
not s 8 8 32768 0 32767\n\
not u 0 64 18446744073709551615 0 0\n\
not u 64 0 18446744073709551615 0 0\n\
not s 0 64 8945133541274400299 0 9501610532435151316\n\
not s 64 0 18446744073709551615 0 0\n\
lt s 4 4 255 255 0\n\
lt u 8 8 32768 0 0\n\
lt u 32 0 4294967295 1 0\n\
lt s 32 0 2147483648 0 1\n\
lt s 63 0 4611686018427387904 0 1\n\
lt u 0 64 9223372036854775808 18446744073709551615 1\n\
lt u 64 0 18446744073709551615 1 0\n\
lt s 0 64 9223372036854775808 9223372036854775808 0\n\
eq u 1 0 1 1 1\n\
eq u 4 4 128 255 0\n\
eq s 4 4 255 255 1\n\
eq s 8 0 128 0 0\n\
eq u 0 64 18446744073709551615 1 0\n\
eq u 64 0 18446744073709551615 1 0\n\
eq s 32 32 7275952412928283713 14706204657589218550 0\n\
eq s 64 0 1084901216439780906 641523041586924646 0\n\
";

// A type, another type, a word of the first and that number at the second.
const CASTS: &str = "\
s 32 0 s 8 0 3944612216 120\n\
s 32 0 s 8 0 2147483648 0\n\
s 8 8 s 32 0 32767 127\n\
s 8 8 s 32 0 57993 4294967266\n\
s 32 0 s 8 8 2147483648 0\n\
s 32 0 s 8 8 600173368 14336\n\
s 0 64 s 64 0 8728555632817905058 0\n\
s 0 64 s 64 0 9223372036854775807 0\n\
s 64 0 s 0 64 9223372036854775808 0\n\
s 64 0 s 0 64 9223372036854775807 0\n\
u 0 64 u 64 0 15618128920189457019 0\n\
u 0 64 u 64 0 9223372036854775807 0\n\
u 64 0 s 1 0 18446744073709551615 1\n\
u 64 0 s 1 0 9223372036854775807 1\n\
s 1 0 s 64 0 1 18446744073709551615\n\
s 1 0 u 64 0 1 18446744073709551615\n\
s 4 4 s 2 2 128 0\n\
s 4 4 s 2 2 255 15\n\
s 8 8 u 16 16 32768 4286578688\n\
s 8 8 u 16 16 32767 8388352\n\
u 64 0 u 0 64 18446744073709551615 0\n\
u 64 0 u 0 64 9223372036854775808 0\n\
s 63 0 s 64 0 4611686018427387903 4611686018427387903\n\
s 63 0 s 64 0 4611686018427387904 13835058055282163712\n\
s 16 16 s 15 16 4294967295 2147483647\n\
s 16 16 s 15 16 3638898756 1491415108\n\
";

#[test]
fn operators_agree_with_unbounded_whole_numbers(rt: HostRuntime) {
    for line in CASES.lines() {
        let mut fields = line.split(' ');
        let operator = fields.next().expect(&rt, "an operator");
        let ty = fix(&rt, fields.next(), fields.next(), fields.next());
        let a = number(&rt, fields.next());
        let b = number(&rt, fields.next());
        let want = number(&rt, fields.next());
        assert_eq!(rt; applied(&rt, operator, ty, a, b), want, "at {line}");
    }
}

#[test]
fn casts_agree_with_unbounded_whole_numbers(rt: HostRuntime) {
    for line in CASTS.lines() {
        let mut fields = line.split(' ');
        let from = fix(&rt, fields.next(), fields.next(), fields.next());
        let to = fix(&rt, fields.next(), fields.next(), fields.next());
        let word = number(&rt, fields.next());
        assert!(rt; is_word(from, word));
        assert_eq!(rt;
            cast(from, to, word),
            number(&rt, fields.next()),
            "at {line}"
        );
    }
}

// 0.01171875, 1, 0.5 and 2 in 8 fraction bits: from left to right 0.0078125, in pairs 0.01171875.
#[test]
fn products_with_fraction_bits_depend_on_their_grouping(rt: HostRuntime) {
    let ty = fix(&rt, Some("s"), Some("8"), Some("8"));
    assert!(rt; is_word(ty, 512));
    assert_eq!(rt; mul(ty, mul(ty, mul(ty, 3, 256), 128), 512), 2);
    assert_eq!(rt; mul(ty, mul(ty, 3, 256), mul(ty, 128, 512)), 3);
}

#[test]
fn types_have_1_to_64_bits(rt: HostRuntime) {
    for (whole, frac, is_type) in [
        (0, 0, false),
        (1, 0, true),
        (0, 64, true),
        (64, 1, false),
        (255, 255, false),
    ] {
        assert_eq!(rt;
            FixTy::new(true, whole, frac).is_some(),
            is_type,
            "{whole} and {frac}"
        );
    }
    assert_eq!(rt;
        (Ty::int().width(), Ty::int().signed(), Ty::int().frac()),
        (32, true, 0)
    );
    assert_eq!(rt;
        (Ty::Bit.width(), Ty::Bit.signed(), Ty::Bit.frac()),
        (1, false, 0)
    );
}

fn port(alloc: Global, ty: Ty, dims: &[u32]) -> Result<PortDecl, AllocError> {
    Ok(PortDecl {
        name: String::new(alloc),
        ty,
        dims: dims.to_vec(alloc)?,
    })
}

fn input(alloc: Global, args: &[u64], drams: &[&[u64]]) -> Result<Input, AllocError> {
    let mut contents = Vec::new(alloc);
    for words in drams {
        contents.push(words.to_vec(alloc)?)?;
    }
    Ok(Input {
        args: args.to_vec(alloc)?,
        drams: contents,
    })
}

#[test]
fn inputs_fit_by_counts_lengths_and_words(rt: HostRuntime) -> Result<(), Fail> {
    let alloc = rt.alloc();
    let ports = Ports {
        args: vec![in alloc; port(alloc, Ty::Bit, &[])?, port(alloc, Ty::int(), &[])?]?,
        outs: Vec::new(alloc),
        drams: vec![in alloc;
            port(alloc, Ty::Bit, &[2, 2])?,
            port(alloc, Ty::int(), &[0, 3])?,
        ]?,
    };
    let full: &[&[u64]] = &[&[0, 1, 1, 0], &[]];
    let cases: [(&[u64], &[&[u64]], bool); 8] = [
        (&[1, 0xffff_ffff], full, true),
        (&[2, 0], full, false),
        (&[1, 0x1_0000_0000], full, false),
        (&[1], full, false),
        (&[1, 0, 0], full, false),
        (&[1, 0], &[&[0, 1, 1, 0]], false),
        (&[1, 0], &[&[0, 1, 1], &[]], false),
        (&[1, 0], &[&[0, 1, 2, 0], &[]], false),
    ];
    for (args, drams, want) in cases {
        assert_eq!(rt;
            fits(&ports, &input(alloc, args, drams)?),
            want,
            "{args:?} {drams:?}"
        );
    }
    Ok(())
}
