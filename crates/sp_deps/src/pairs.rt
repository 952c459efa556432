//! The least distance at which two accesses may meet.
ghost use Rattle.std.specs.Prelude.{◌≡◌, ◌≢◌, ◌↔◌, ◌≤◌, ◌<◌, ◌^◌, ℕ, pos, ◌+ℤ◌, ◌*ℤ◌, unsigned_abs, true, false, [], length, Some, None, IfSome, IfNone, IsTrue};
ghost use Rattle.std.specs.List.{All};
ghost use Rattle.sp_deps.specs.declared.class.Class.TheVariants.{Steps};
ghost use Rattle.sp_deps.specs.Access.{HasRange, plain_access, can_meet};
ghost use Rattle.sp_deps.specs.Bounds.{HasCounters, AreRanges};
ghost use Rattle.sp_deps.specs.Classes.{is_ruled_out, is_open, may_meet};
ghost use Rattle.sp_deps.specs.Distances.{all_common, earlier_may_meet, steps_may_meet, IsLeast, IsLeastUpTo, AreParallel, IsDistance, IsDistanceOver};

use crate::access::{Access, Dist, LoopRange};
use crate::class::{Class, last_step, may_meet, parts};
use crate::terms::difference;
use sp_affine::Form;

/// Whether two accesses can meet at all: they are on one memory, and one of them writes.
pub fn can_meet(a: &Access, b: &Access) -> bool
    ensures { result ≡ can_meet (plain_access a.now) (plain_access b.now) }
{
    a.mem == b.mem && (a.writes || b.writes)
}

/// The least distance of two accesses over the counters of a loop.
///
/// `loops` describes the last counters of the forms. Those before them belong to counters outside, as many in both
/// accesses.
pub fn distance(a: &Access, b: &Access, loops: &[LoopRange]) -> Dist
    requires ranges { All HasRange loops.now }
    requires a { IfSome a.now.forms (λ v. All (λ f. HasCounters loops.now [] f.coefs) v.items) }
    requires b { IfSome b.now.forms (λ v. All (λ f. HasCounters loops.now [] f.coefs) v.items) }
    ensures { IsDistance (plain_access a.now) (plain_access b.now) loops.now result }
{
    if !can_meet(a, b) {
        return Dist::Never;
    }
    match (&a.forms, &b.forms) {
        (Some(first), Some(second)) => distance_of(first, second, loops),
        _ => Dist::AtLeast(if loops.is_empty() { 0 } else { 1 }),
    }
}

fn distance_of(a: &[Form], b: &[Form], loops: &[LoopRange]) -> Dist
    requires ranges { All HasRange loops.now }
    requires a { All (λ f. HasCounters loops.now [] f.coefs) a.now }
    requires b { All (λ f. HasCounters loops.now [] f.coefs) b.now }
    ensures { IsDistanceOver (all_common loops.now) (Some a.now) (Some b.now) (length loops.now) result }
{
    if loops.is_empty() {
        return if may_meet(Class::Same, a, b, loops, &[], &[]) {
            Dist::AtLeast(0)
        } else {
            Dist::Never
        };
    }
    if earlier_may_meet(loops.len() - 1, a, b, loops) {
        return Dist::AtLeast(1);
    }
    if are_parallel(a, b) {
        least_step(a, b, loops)
    } else {
        least_of_64(a, b, loops)
    }
}

// Whether some of the first `n` classes of earlier counters is not ruled out.
fn earlier_may_meet(n: usize, a: &[Form], b: &[Form], loops: &[LoopRange]) -> bool
    requires ranges { All HasRange loops.now }
    requires a { All (λ f. HasCounters loops.now [] f.coefs) a.now }
    requires b { All (λ f. HasCounters loops.now [] f.coefs) b.now }
    ensures { result ≡ earlier_may_meet (all_common loops.now) (Some a.now) (Some b.now) n }
{
    for i in 0..n {
        if may_meet(Class::Earlier(i), a, b, loops, &[], &[]) {
            return true;
        }
    }
    false
}

fn steps_may_meet(t: u64, a: &[Form], b: &[Form], loops: &[LoopRange]) -> bool
    requires ranges { All HasRange loops.now }
    requires a { All (λ f. HasCounters loops.now [] f.coefs) a.now }
    requires b { All (λ f. HasCounters loops.now [] f.coefs) b.now }
    ensures { result ≡ steps_may_meet (all_common loops.now) (Some a.now) (Some b.now) t }
{
    may_meet(Class::Steps(t), a, b, loops, &[], &[])
}

fn are_parallel(a: &[Form], b: &[Form]) -> bool
    ensures { IsTrue result ↔ AreParallel a.now b.now }
{
    let [f, fs @ ..] = a else {
        return true;
    };
    let [g, gs @ ..] = b else {
        return true;
    };
    f.has_linear_part_of(g) && are_parallel(fs, gs)
}

// The least number of steps from 1 to 64 that is not ruled out, or 65.
fn least_of_64(a: &[Form], b: &[Form], loops: &[LoopRange]) -> Dist
    requires ranges { All HasRange loops.now }
    requires a { All (λ f. HasCounters loops.now [] f.coefs) a.now }
    requires b { All (λ f. HasCounters loops.now [] f.coefs) b.now }
    ensures { IsLeastUpTo 64 (steps_may_meet (all_common loops.now) (Some a.now) (Some b.now)) result }
{
    for t in 1..65 {
        if steps_may_meet(t, a, b, loops) {
            return Dist::AtLeast(t);
        }
    }
    Dist::AtLeast(65)
}

// The least number of steps that is not ruled out, where the linear parts are equal: either each number does the same, or
// one alone is left.
fn least_step(a: &[Form], b: &[Form], loops: &[LoopRange]) -> Dist
    requires ranges { All HasRange loops.now }
    requires a { All (λ f. HasCounters loops.now [] f.coefs) a.now }
    requires b { All (λ f. HasCounters loops.now [] f.coefs) b.now }
    requires parallel { AreParallel a.now b.now }
    ensures { IsLeast (steps_may_meet (all_common loops.now) (Some a.now) (Some b.now)) result }
{
    if steps_may_meet(1, a, b, loops) {
        return Dist::AtLeast(1);
    }
    let only = candidate(a, b, loops);
    if steps_may_meet(only, a, b, loops) {
        Dist::AtLeast(only)
    } else {
        Dist::Never
    }
}

// The one number of steps at which two parallel accesses may meet that don't meet in one step.
fn candidate(a: &[Form], b: &[Form], loops: &[LoopRange]) -> u64
    requires a { All (λ f. HasCounters loops.now [] f.coefs) a.now }
    requires b { All (λ f. HasCounters loops.now [] f.coefs) b.now }
    requires parallel { AreParallel a.now b.now }
    ensures some { 1 ≤ result }
    ensures only { (t : ℕ) → 1 ≤ t → t ≢ result → is_open (all_common loops.now) (Steps t) a.now b.now ≡ true
        → is_open (all_common loops.now) (Steps 1) a.now b.now ≡ true }
{
    let [f, fs @ ..] = a else {
        return 1;
    };
    let [g, gs @ ..] = b else {
        return 1;
    };
    match only_step(f, g, loops) {
        Some(t) => t,
        None => candidate(fs, gs, loops),
    }
}

// The one number of steps at which two parallel indices may be equal, where they don't behave alike at each.
fn only_step(f: &Form, g: &Form, loops: &[LoopRange]) -> Option<u64>
    requires f { HasCounters loops.now [] f.now.coefs }
    requires g { HasCounters loops.now [] g.now.coefs }
    requires parallel { f.now.coefs ≡ g.now.coefs }
    ensures some { IfSome result (λ k. 1 ≤ k) }
    ensures only { IfSome result (λ k. (t : ℕ) → 1 ≤ t → t ≢ k → is_ruled_out (all_common loops.now) f.now g.now (Steps t) ≡ true) }
    ensures alike { IfNone result ((t : ℕ) → is_ruled_out (all_common loops.now) f.now g.now (Steps t) ≡ is_ruled_out (all_common loops.now) f.now g.now (Steps 1)) }
{
    let second = parts(&g.coefs, loops, &[]);
    let step = last_step(second.common, loops);
    if step == 0 {
        return None;
    }
    Some(quotient(&difference(&f.constant, &g.constant), &step))
}

fn quotient(start: &i128, step: &i128) -> u64
    requires start { unsigned_abs start.now < 2 ^ 64 }
    requires step { 0 < unsigned_abs step.now }
    ensures some { 1 ≤ result }
    ensures only { (t : ℕ) → 1 ≤ t → start.now +ℤ (step.now *ℤ pos t) ≡ pos 0 → t ≡ result }
{
    let whole = start.unsigned_abs() / step.unsigned_abs();
    whole.max(1) as u64
}
