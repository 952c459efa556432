ghost use Rattle.std.specs.Prelude.{◌≡◌, IfOk, length};

use sp_affine::{Form, FormError, add, are_counter_ranges, interval, minus, scale};
use std::alloc::{AllocError, Global};
use std::test::Fail;

// Coefficients, constant and symbol.
type Parts = ([i64; 2], i64, Option<u32>);

fn form(alloc: Global, parts: &Parts) -> Result<Form, AllocError>
    ensures { IfOk result (λ f. length f.coefs ≡ 2) }
{
    Ok(Form {
        coefs: Vec::from_slice(alloc, &parts.0)?,
        constant: parts.1,
        symbol: parts.2,
    })
}

fn wanted(alloc: Global, want: &Result<Parts, FormError>) -> Result<Form, FormError> {
    match want {
        Ok(parts) => Ok(form(alloc, parts)?),
        Err(e) => Err(*e),
    }
}

#[test]
fn sums(rt: HostRuntime) -> Result<(), Fail> {
    let cases: [(Parts, Parts, Result<Parts, FormError>); 13] = [
        (
            ([1, 2], 3, None),
            ([10, -20], -30, None),
            Ok(([11, -18], -27, None)),
        ),
        (
            ([0, 0], 0, Some(7)),
            ([5, 6], 7, None),
            Ok(([5, 6], 7, Some(7))),
        ),
        (
            ([5, 6], 7, None),
            ([0, 0], 0, Some(7)),
            Ok(([5, 6], 7, Some(7))),
        ),
        (
            ([0, 0], 0, Some(1)),
            ([0, 0], 0, Some(1)),
            Err(FormError::Symbols),
        ),
        (
            ([0, 0], 0, Some(1)),
            ([0, 0], 0, Some(2)),
            Err(FormError::Symbols),
        ),
        (
            ([i64::MAX, 0], 0, None),
            ([0, 1], 1, None),
            Ok(([i64::MAX, 1], 1, None)),
        ),
        (
            ([i64::MAX, 0], 0, None),
            ([1, 0], 0, None),
            Err(FormError::Wide),
        ),
        (
            ([0, i64::MIN], 0, None),
            ([0, -1], 0, None),
            Err(FormError::Wide),
        ),
        (
            ([0, 0], i64::MAX, None),
            ([0, 0], 1, None),
            Err(FormError::Wide),
        ),
        (
            ([0, 0], i64::MIN, None),
            ([0, 0], -1, None),
            Err(FormError::Wide),
        ),
        (
            ([i64::MAX, i64::MIN], i64::MIN, None),
            ([i64::MIN, i64::MAX], i64::MAX, Some(4)),
            Ok(([-1, -1], -1, Some(4))),
        ),
        (
            ([0, i64::MAX], 0, Some(1)),
            ([0, 1], 0, Some(2)),
            Err(FormError::Wide),
        ),
        (
            ([0, 0], i64::MAX, Some(1)),
            ([0, 0], 1, Some(1)),
            Err(FormError::Wide),
        ),
    ];
    for (a, b, want) in &cases {
        let a = form(rt.alloc(), a)?;
        let b = form(rt.alloc(), b)?;
        assert_eq!(rt;
            add(rt.alloc(), &a, &b),
            wanted(rt.alloc(), want),
            "{a:?} + {b:?}"
        );
    }
    Ok(())
}

#[test]
fn differences(rt: HostRuntime) -> Result<(), Fail> {
    let cases: [(Parts, Parts, Result<Parts, FormError>); 11] = [
        (
            ([1, 2], 3, None),
            ([10, -20], -30, None),
            Ok(([-9, 22], 33, None)),
        ),
        (
            ([1, 2], 3, Some(9)),
            ([1, 2], 3, Some(9)),
            Ok(([0, 0], 0, None)),
        ),
        (
            ([1, 2], 3, Some(9)),
            ([4, 5], 6, None),
            Ok(([-3, -3], -3, Some(9))),
        ),
        (
            ([1, 2], 3, None),
            ([0, 0], 0, Some(9)),
            Err(FormError::Symbols),
        ),
        (
            ([1, 2], 3, Some(8)),
            ([0, 0], 0, Some(9)),
            Err(FormError::Symbols),
        ),
        (
            ([i64::MIN, 0], 0, None),
            ([1, 0], 0, None),
            Err(FormError::Wide),
        ),
        (
            ([i64::MIN, 0], 0, None),
            ([0, 1], 1, None),
            Ok(([i64::MIN, -1], -1, None)),
        ),
        (
            ([0, -1], -1, None),
            ([0, i64::MAX], i64::MAX, None),
            Ok(([0, i64::MIN], i64::MIN, None)),
        ),
        (
            ([0, 0], 0, None),
            ([0, 0], i64::MIN, None),
            Err(FormError::Wide),
        ),
        (
            ([-1, -1], -1, Some(3)),
            ([i64::MIN, i64::MIN], i64::MIN, Some(3)),
            Ok(([i64::MAX, i64::MAX], i64::MAX, None)),
        ),
        (
            ([0, i64::MIN], 0, Some(1)),
            ([0, 1], 0, Some(2)),
            Err(FormError::Wide),
        ),
    ];
    for (a, b, want) in &cases {
        let a = form(rt.alloc(), a)?;
        let b = form(rt.alloc(), b)?;
        assert_eq!(rt;
            minus(rt.alloc(), &a, &b),
            wanted(rt.alloc(), want),
            "{a:?} - {b:?}"
        );
    }
    Ok(())
}

#[test]
fn multiples(rt: HostRuntime) -> Result<(), Fail> {
    let cases: [(Parts, i64, Result<Parts, FormError>); 13] = [
        (([1, -2], 3, None), -4, Ok(([-4, 8], -12, None))),
        (([i64::MAX, 0], 0, None), 2, Err(FormError::Wide)),
        (([i64::MAX, 0], 0, Some(6)), 2, Err(FormError::Wide)),
        (([1, 2], 3, Some(6)), 0, Ok(([0, 0], 0, None))),
        (([1, 2], 3, Some(6)), 1, Ok(([1, 2], 3, Some(6)))),
        (([1, 2], 3, Some(6)), 2, Err(FormError::Symbols)),
        (([1, 2], 3, Some(6)), -1, Err(FormError::Symbols)),
        (([i64::MIN, 0], 0, None), -1, Err(FormError::Wide)),
        (
            ([i64::MAX, i64::MAX], i64::MAX, None),
            -1,
            Ok((
                [-9223372036854775807, -9223372036854775807],
                -9223372036854775807,
                None,
            )),
        ),
        (([0, 0], i64::MIN, None), -1, Err(FormError::Wide)),
        (([i64::MIN, i64::MAX], 0, Some(5)), 0, Ok(([0, 0], 0, None))),
        (([4294967296, 0], 0, None), 2147483648, Err(FormError::Wide)),
        (
            ([4294967296, 0], 0, None),
            -2147483648,
            Ok(([i64::MIN, 0], 0, None)),
        ),
    ];
    for (a, by, want) in &cases {
        let a = form(rt.alloc(), a)?;
        assert_eq!(rt;
            scale(rt.alloc(), &a, *by),
            wanted(rt.alloc(), want),
            "{a:?} * {by}"
        );
    }
    Ok(())
}

#[test]
fn intervals(rt: HostRuntime) -> Result<(), Fail> {
    let cases: [(Parts, [(i64, i64); 2], Option<(i128, i128)>); 9] = [
        (([1, 2], 3, None), [(0, 4), (-1, 5)], Some((1, 17))),
        (([-3, 2], 0, None), [(0, 4), (-1, 5)], Some((-14, 10))),
        (([-3, -7], 10, None), [(-2, 4), (-1, 5)], Some((-37, 23))),
        (([0, 0], -8, None), [(0, 4), (-1, 5)], Some((-8, -8))),
        (([1, 1], 0, Some(4)), [(0, 1), (0, 1)], None),
        (
            ([i64::MIN, i64::MIN], i64::MIN, None),
            [
                (-4503599627370496, 4503599627370496),
                (-4503599627370496, 4503599627370496),
            ],
            Some((
                -83076749736557251279859978122297344,
                83076749736557232833115904412745728,
            )),
        ),
        (
            ([i64::MAX, i64::MAX], i64::MAX, None),
            [
                (-4503599627370496, 4503599627370496),
                (-4503599627370496, 4503599627370496),
            ],
            Some((
                -83076749736557232824108705158004737,
                83076749736557251270852778867556351,
            )),
        ),
        (
            ([5, 0], 1, None),
            [(6, 6), (-4503599627370496, 4503599627370496)],
            Some((31, 31)),
        ),
        (([-1, 1], 0, None), [(1, 3), (1, 3)], Some((-2, 2))),
    ];
    for (a, ranges, want) in &cases {
        let a = form(rt.alloc(), a)?;
        assert!(rt; are_counter_ranges(ranges));
        assert_eq!(rt; interval(&a, ranges), *want, "{a:?} over {ranges:?}");
    }
    Ok(())
}

#[test]
fn an_end_past_the_limit_is_no_counter_range(rt: HostRuntime) {
    let limit = 1i64 << 52;
    assert!(rt; !are_counter_ranges(&[(0, 1), (0, limit + 1)]));
    assert!(rt; !are_counter_ranges(&[(-limit - 1, 0)]));
    assert!(rt; !are_counter_ranges(&[(1, 0)]));
}

#[test]
fn a_copy_is_equal_and_a_change_of_any_part_is_not(rt: HostRuntime) -> Result<(), Fail> {
    let a = form(rt.alloc(), &([1, 2], 3, Some(4)))?;
    assert_eq!(rt; a.clone()?, a);
    for other in [
        ([1, 5], 3, Some(4)),
        ([1, 2], 5, Some(4)),
        ([1, 2], 3, Some(5)),
        ([1, 2], 3, None),
    ] {
        assert!(rt; form(rt.alloc(), &other)? != a, "{other:?}");
    }
    assert!(rt; a.has_linear_part_of(&form(rt.alloc(), &([1, 2], 9, Some(4)))?));
    assert!(rt; !a.has_linear_part_of(&form(rt.alloc(), &([1, 2], 3, None))?));
    Ok(())
}

#[test]
fn messages(rt: HostRuntime) -> Result<(), Fail> {
    let text = format!(in rt.alloc();
        "{}; {}; {}",
        FormError::Wide,
        FormError::Symbols,
        FormError::Memory
    )?;
    assert_eq!(rt;
        text.as_str(),
        "a number of the form leaves 64 bits; the form would have more than one symbol, or a multiple of one; out of memory"
    );
    Ok(())
}
