//! The terms of a difference of indices, kind by kind, each added to the sum of those that follow.
ghost use Rattle.std.specs.Prelude.{◌≡◌, ◌≤◌, ◌<◌, ℕ, ◌++◌, ◌+◌, ◌*◌, ◌-◌, length, pos, neg_ℤ, ◌-ℤ◌, ◌*ℤ◌, ◌^◌, unsigned_abs};
ghost use Rattle.std.specs.List.{All};
ghost use Rattle.sp_deps.specs.Access.{HasRange, range_of, steps_of, most_steps};
ghost use Rattle.sp_deps.specs.Bounds.{IsWithin, IsTermWithin};
ghost use Rattle.sp_deps.specs.Classes.{term, unknown, outside, shared, own_first, own_second, stepped, stepping};
ghost use Rattle.sp_deps.specs.Sums.{onto};

use crate::access::LoopRange;
use crate::sum::{Range, Sum, Term};

/// Counters outside of the loop: one value for both accesses, of which nothing is known.
pub fn outside(a: &[i64], b: &[i64], rest: &Sum) -> Sum
    requires { IsWithin 3000 rest.now }
    ensures sum { result ≡ onto (outside a.now b.now) rest.now }
    ensures narrow { rest.now.divisor < 2 ^ 64 → result.divisor < 2 ^ 64 }
    ensures within { (n : ℕ) → IsWithin n rest.now → IsWithin n result }
{
    let [x, xs @ ..] = a else {
        return *rest;
    };
    let [y, ys @ ..] = b else {
        return *rest;
    };
    outside(xs, ys, rest).plus(&outside_term(x, y))
}

/// Counters that have one value for both accesses.
pub fn shared(a: &[i64], b: &[i64], loops: &[LoopRange], rest: &Sum) -> Sum
    requires few { length loops.now ≤ 1024 }
    requires ranges { All HasRange loops.now }
    requires room { IsWithin (2 * (1024 - length loops.now)) rest.now }
    ensures sum { result ≡ onto (shared a.now b.now loops.now) rest.now }
    ensures narrow { rest.now.divisor < 2 ^ 64 → result.divisor < 2 ^ 64 }
    ensures within { (n : ℕ) → IsWithin n rest.now → IsWithin (n + 2 * length loops.now) result }
{
    let [x, xs @ ..] = a else {
        return *rest;
    };
    let [y, ys @ ..] = b else {
        return *rest;
    };
    let [l, others @ ..] = loops else {
        return *rest;
    };
    shared(xs, ys, others, rest).plus(&shared_term(x, y, l))
}

/// Counters that have a value of their own for the second access.
pub fn own_second(b: &[i64], loops: &[LoopRange], rest: &Sum) -> Sum
    requires ranges { All HasRange loops.now }
    requires few { length loops.now ≤ 1024 }
    requires room { IsWithin (3000 - length loops.now) rest.now }
    ensures sum { result ≡ onto (own_second b.now loops.now) rest.now }
    ensures narrow { rest.now.divisor < 2 ^ 64 → result.divisor < 2 ^ 64 }
    ensures within { (n : ℕ) → IsWithin n rest.now → IsWithin (n + length loops.now) result }
{
    let [y, ys @ ..] = b else {
        return *rest;
    };
    let [l, others @ ..] = loops else {
        return *rest;
    };
    own_second(ys, others, rest).plus(&second_term(y, l))
}

/// Counters that have a value of their own for the first access.
pub fn own_first(a: &[i64], loops: &[LoopRange], rest: &Sum) -> Sum
    requires ranges { All HasRange loops.now }
    requires few { length loops.now ≤ 1024 }
    requires room { IsWithin (3000 - length loops.now) rest.now }
    ensures sum { result ≡ onto (own_first a.now loops.now) rest.now }
    ensures narrow { rest.now.divisor < 2 ^ 64 → result.divisor < 2 ^ 64 }
    ensures within { (n : ℕ) → IsWithin n rest.now → IsWithin (n + length loops.now) result }
{
    let [x, xs @ ..] = a else {
        return *rest;
    };
    let [l, others @ ..] = loops else {
        return *rest;
    };
    own_first(xs, others, rest).plus(&first_term(x, l))
}

/// Counter `i` goes on by steps; those before it have one value for both accesses, those after it are free.
pub fn stepping(i: usize, a: &[i64], b: &[i64], loops: &[LoopRange], rest: &Sum) -> Sum
    requires few { length loops.now ≤ 1024 }
    requires ranges { All HasRange loops.now }
    requires room { IsWithin (2 * (1024 - length loops.now)) rest.now }
    ensures sum { result ≡ onto (stepping i a.now b.now loops.now) rest.now }
    ensures within { (n : ℕ) → IsWithin n rest.now → IsWithin (n + 2 + 2 * length loops.now) result }
{
    let [x, xs @ ..] = a else {
        return *rest;
    };
    let [y, ys @ ..] = b else {
        return *rest;
    };
    let [l, others @ ..] = loops else {
        return *rest;
    };
    if i == 0 {
        return stepped(y, l, xs, ys, others, rest).plus(&shared_term(x, y, l));
    }
    stepping(i - 1, xs, ys, others, rest).plus(&shared_term(x, y, l))
}

// A counter that goes on by steps, with coefficient `y` for the second access, and those after it.
fn stepped(y: &i64, l: &LoopRange, a: &[i64], b: &[i64], loops: &[LoopRange], rest: &Sum) -> Sum
    requires few { length loops.now ≤ 1023 }
    requires range { HasRange l.now }
    requires ranges { All HasRange loops.now }
    requires room { IsWithin (2 * (1023 - length loops.now)) rest.now }
    ensures sum { result ≡ onto (stepped y.now l.now a.now b.now loops.now) rest.now }
    ensures within { (n : ℕ) → IsWithin n rest.now → IsWithin (n + 2 + 2 * length loops.now) result }
{
    free(a, b, loops, rest).plus(&step_term(y, l))
}

// Counters that have a value of their own for each access.
pub fn free(a: &[i64], b: &[i64], loops: &[LoopRange], rest: &Sum) -> Sum
    requires few { length loops.now ≤ 1024 }
    requires ranges { All HasRange loops.now }
    requires room { IsWithin (2 * (1024 - length loops.now)) rest.now }
    ensures sum { result ≡ onto (own_first a.now loops.now ++ own_second b.now loops.now) rest.now }
    ensures narrow { rest.now.divisor < 2 ^ 64 → result.divisor < 2 ^ 64 }
    ensures within { (n : ℕ) → IsWithin n rest.now → IsWithin (n + 2 * length loops.now) result }
{
    own_first(a, loops, &own_second(b, loops, rest))
}

fn outside_term(x: &i64, y: &i64) -> Term
    ensures term { result ≡ term (y.now -ℤ x.now) unknown }
    ensures narrow { unsigned_abs result.coef < 2 ^ 64 }
    ensures within { IsTermWithin 0 result.coef result.range }
{
    Term {
        coef: difference(x, y),
        range: unknown(),
    }
}

fn shared_term(x: &i64, y: &i64, l: &LoopRange) -> Term
    requires { HasRange l.now }
    ensures term { result ≡ term (y.now -ℤ x.now) (range_of l.now) }
    ensures narrow { unsigned_abs result.coef < 2 ^ 64 }
    ensures within { IsTermWithin 2 result.coef result.range }
{
    Term {
        coef: difference(x, y),
        range: range_of(l),
    }
}

fn first_term(x: &i64, l: &LoopRange) -> Term
    requires { HasRange l.now }
    ensures term { result ≡ term (neg_ℤ x.now) (range_of l.now) }
    ensures narrow { unsigned_abs result.coef < 2 ^ 64 }
    ensures within { IsTermWithin 1 result.coef result.range }
{
    Term {
        coef: opposite(x),
        range: range_of(l),
    }
}

fn second_term(y: &i64, l: &LoopRange) -> Term
    requires { HasRange l.now }
    ensures term { result ≡ term y.now (range_of l.now) }
    ensures narrow { unsigned_abs result.coef < 2 ^ 64 }
    ensures within { IsTermWithin 1 result.coef result.range }
{
    Term {
        coef: itself(y),
        range: range_of(l),
    }
}

fn step_term(y: &i64, l: &LoopRange) -> Term
    requires { HasRange l.now }
    ensures term { result ≡ term (y.now *ℤ pos l.now.by) (steps_of l.now) }
    ensures within { IsTermWithin 2 result.coef result.range }
{
    Term {
        coef: multiple(y, l.by),
        range: steps_of(l),
    }
}

/// The second number less the first.
pub fn difference(x: &i64, y: &i64) -> i128
    ensures value { result ≡ y.now -ℤ x.now }
    ensures small { unsigned_abs result < 2 ^ 64 }
{
    i128::from(*y) - i128::from(*x)
}

fn opposite(x: &i64) -> i128
    ensures value { result ≡ neg_ℤ x.now }
    ensures small { unsigned_abs result ≤ 2 ^ 63 }
{
    -i128::from(*x)
}

fn itself(y: &i64) -> i128
    ensures value { result ≡ y.now }
    ensures small { unsigned_abs result ≤ 2 ^ 63 }
{
    i128::from(*y)
}

fn multiple(y: &i64, by: u32) -> i128
    ensures value { result ≡ y.now *ℤ pos by }
    ensures small { unsigned_abs y.now ≤ 2 ^ 63 }
{
    i128::from(*y) * i128::from(by)
}

fn unknown() -> Range
    ensures { result ≡ unknown }
{
    Range {
        least: None,
        greatest: None,
    }
}

fn range_of(l: &LoopRange) -> Range
    ensures { result ≡ range_of l.now }
{
    match l.from {
        Some((least, greatest)) => Range {
            least: Some(least),
            greatest: Some(greatest),
        },
        None => unknown(),
    }
}

fn steps_of(l: &LoopRange) -> Range
    requires { HasRange l.now }
    ensures { result ≡ steps_of l.now }
{
    Range {
        least: Some(1),
        greatest: most_steps(l),
    }
}

fn most_steps(l: &LoopRange) -> Option<i64>
    requires { HasRange l.now }
    ensures { result ≡ most_steps l.now.from l.now.by }
{
    match l.from {
        Some((least, greatest)) => {
            let width = greatest.abs_diff(least);
            let steps = width.checked_div(u64::from(l.by)).unwrap_or(0);
            Some(steps.max(1) as i64)
        }
        None => None,
    }
}
