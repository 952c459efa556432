//! Classes of distances of two accesses, and whether the forms of their indices rule one out.
ghost use Rattle.std.specs.Prelude.{◌≡◌, ◌≤◌, ◌<◌, ◌+◌, ◌-◌, ◌*◌, ◌^◌, ◌++◌, ℕ, length, not, pos, neg_ℤ, ◌+ℤ◌, ◌-ℤ◌, ◌*ℤ◌, unsigned_abs, Some};
ghost use Rattle.std.specs.List.{All};
ghost use Rattle.sp_deps.specs.Access.{HasRange, advance};
ghost use Rattle.sp_deps.specs.Bounds.{IsWithin, HasCounters, AreRanges, IsNarrowIn};
ghost use Rattle.sp_deps.specs.Classes.{of_outside, of_common, of_own, own_first, own_second, last_step, inside_of, terms_of, is_ruled_out, same_symbol, is_open, have_same_symbols, may_meet};
ghost use Rattle.sp_deps.specs.Sums.{sum_of, onto};

use crate::access::LoopRange;
use crate::sum::Sum;
use crate::terms::{difference, outside, own_first, own_second, shared, stepping};
use crate::value::{may_be, may_be_opposite};
use sp_affine::Form;

/// The second of two accesses stands in the same group as the first, or so many steps of the last counter after it, or
/// any number of steps of an earlier counter.
#[derive(Clone, Copy, Debug)]
pub enum Class {
    Same,
    Steps(u64),
    Earlier(usize),
}

/// The coefficients of the counters outside, of those of the loop, and of the access's own.
#[derive(Clone, Copy, Debug)]
pub struct Coefs<'a> {
    pub outside: &'a [i64],
    pub common: &'a [i64],
    pub own: &'a [i64],
}

pub fn parts<'a>(coefs: &'a [i64], common: &[LoopRange], own: &[LoopRange]) -> Coefs<'a>
    requires { length common.now + length own.now ≤ length coefs.now }
    ensures outside { result.outside.now ≡ of_outside common.now own.now coefs.now }
    ensures common { result.common.now ≡ of_common common.now own.now coefs.now }
    ensures own { result.own.now ≡ of_own common.now own.now coefs.now }
{
    let (outside, inside) = coefs.split_at(coefs.len() - (common.len() + own.len()));
    let (common, own) = inside.split_at(common.len());
    Coefs {
        outside,
        common,
        own,
    }
}

/// The sum of the terms of the difference of two indices.
pub fn sum_in(
    class: Class,
    f: &Form,
    g: &Form,
    common: &[LoopRange],
    first: &[LoopRange],
    second: &[LoopRange],
) -> Sum
    requires f { HasCounters common.now first.now f.now.coefs }
    requires g { HasCounters common.now second.now g.now.coefs }
    requires ranges { AreRanges (record { common = common.now; first = first.now; second = second.now }) }
    ensures sum { result ≡ sum_of (terms_of (record { common = common.now; first = first.now; second = second.now }) f.now g.now class) }
    ensures within { IsWithin 2050 result }
    ensures narrow { IsNarrowIn class result }
{
    let a = parts(&f.coefs, common, first);
    let b = parts(&g.coefs, common, second);
    let own = own_terms(a.own, b.own, first, second);
    let inside = inside_terms(class, a.common, b.common, common, &own);
    outside(a.outside, b.outside, &inside)
}

fn own_terms(a: &[i64], b: &[i64], first: &[LoopRange], second: &[LoopRange]) -> Sum
    requires first { All HasRange first.now }
    requires few_first { length first.now ≤ 1024 }
    requires second { All HasRange second.now }
    requires few_second { length second.now ≤ 1024 }
    ensures sum { result ≡ sum_of (own_first a.now first.now ++ own_second b.now second.now) }
    ensures within { IsWithin (length first.now + length second.now) result }
    ensures narrow { result.divisor < 2 ^ 64 }
{
    own_first(a, first, &own_second(b, second, &Sum::empty()))
}

fn inside_terms(class: Class, a: &[i64], b: &[i64], common: &[LoopRange], rest: &Sum) -> Sum
    requires few { length common.now ≤ 1024 }
    requires ranges { All HasRange common.now }
    requires room { IsWithin (2 * (1024 - length common.now)) rest.now }
    ensures sum { result ≡ onto (inside_of class a.now b.now common.now) rest.now }
    ensures within { IsWithin 2050 result }
    ensures narrow { rest.now.divisor < 2 ^ 64 → IsNarrowIn class result }
{
    match class {
        Class::Same => outside(a, b, rest),
        Class::Steps(_) => shared(a, b, common, rest),
        Class::Earlier(i) => stepping(i, a, b, common, rest),
    }
}

/// Whether a class is ruled out by two indices: the divisor of the coefficients doesn't divide the constant, or 0 lies
/// outside of the interval.
pub fn is_ruled_out(
    class: Class,
    f: &Form,
    g: &Form,
    common: &[LoopRange],
    first: &[LoopRange],
    second: &[LoopRange],
) -> bool
    requires f { HasCounters common.now first.now f.now.coefs }
    requires g { HasCounters common.now second.now g.now.coefs }
    requires ranges { AreRanges (record { common = common.now; first = first.now; second = second.now }) }
    ensures { result ≡ is_ruled_out (record { common = common.now; first = first.now; second = second.now }) f.now g.now class }
{
    let sum = sum_in(class, f, g, common, first, second);
    let start = difference(&f.constant, &g.constant);
    match class {
        Class::Same => !may_be(&sum, &opposite(&start)),
        Class::Steps(t) => {
            let b = parts(&g.coefs, common, second);
            !may_be_opposite(&sum, &start, &last_step(b.common, common), t)
        }
        Class::Earlier(_) => !may_be(&sum, &opposite(&start)),
    }
}

fn opposite(z: &i128) -> i128
    requires { unsigned_abs z.now < 2 ^ 64 }
    ensures { result ≡ neg_ℤ z.now }
{
    -*z
}

/// How far the last counter goes on in a group, times its coefficient.
pub fn last_step(b: &[i64], loops: &[LoopRange]) -> i128
    ensures step { result ≡ last_step b.now loops.now }
    ensures small { unsigned_abs result < 2 ^ 127 }
{
    let [y, ys @ ..] = b else {
        return 0;
    };
    let [l, others @ ..] = loops else {
        return 0;
    };
    if ys.is_empty() && others.is_empty() {
        return far(y, l);
    }
    last_step(ys, others)
}

fn far(y: &i64, l: &LoopRange) -> i128
    ensures step { result ≡ y.now *ℤ pos (advance l.now) }
    ensures small { unsigned_abs result < 2 ^ 127 }
{
    times(y, advance(l))
}

fn times(y: &i64, steps: u64) -> i128
    ensures value { result ≡ y.now *ℤ pos steps }
    ensures small { unsigned_abs result < 2 ^ 127 }
{
    i128::from(*y) * i128::from(steps)
}

fn advance(l: &LoopRange) -> u64
    ensures { result ≡ advance l.now }
{
    u64::from(l.by) * u64::from(l.par)
}

/// Whether no index rules a class out.
pub fn is_open(
    class: Class,
    a: &[Form],
    b: &[Form],
    common: &[LoopRange],
    first: &[LoopRange],
    second: &[LoopRange],
) -> bool
    requires a { All (λ f. HasCounters common.now first.now f.coefs) a.now }
    requires b { All (λ g. HasCounters common.now second.now g.coefs) b.now }
    requires ranges { AreRanges (record { common = common.now; first = first.now; second = second.now }) }
    ensures { result ≡ is_open (record { common = common.now; first = first.now; second = second.now }) class a.now b.now }
{
    let [f, fs @ ..] = a else {
        return true;
    };
    let [g, gs @ ..] = b else {
        return true;
    };
    !is_ruled_out(class, f, g, common, first, second)
        && is_open(class, fs, gs, common, first, second)
}

/// Whether two accesses have the same symbols, index by index.
pub fn have_same_symbols(a: &[Form], b: &[Form]) -> bool
    ensures { result ≡ have_same_symbols a.now b.now }
{
    let [f, fs @ ..] = a else {
        return true;
    };
    let [g, gs @ ..] = b else {
        return true;
    };
    f.symbol == g.symbol && have_same_symbols(fs, gs)
}

/// Whether two accesses may meet in a class.
pub fn may_meet(
    class: Class,
    a: &[Form],
    b: &[Form],
    common: &[LoopRange],
    first: &[LoopRange],
    second: &[LoopRange],
) -> bool
    requires a { All (λ f. HasCounters common.now first.now f.coefs) a.now }
    requires b { All (λ g. HasCounters common.now second.now g.coefs) b.now }
    requires ranges { AreRanges (record { common = common.now; first = first.now; second = second.now }) }
    ensures { result ≡ may_meet (record { common = common.now; first = first.now; second = second.now }) class (Some a.now) (Some b.now) }
{
    !have_same_symbols(a, b) || is_open(class, a, b, common, first, second)
}
