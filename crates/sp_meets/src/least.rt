//! The least distance of two accesses that have counters of their own.
ghost use Rattle.std.specs.Prelude.{◌≡◌, ◌≢◌, ◌⊎◌, ◌≤◌, ◌<◌, ◌↔◌, ℕ, [], IsTrue, length, true, false, take, Some, IfSome, IsSome, IsNone, if◌then◌else◌};
ghost use Rattle.std.specs.List.{All};
ghost use Rattle.sp_deps.specs.declared.access.Dist.TheVariants.{Never, AtLeast};
ghost use Rattle.sp_deps.specs.Access.{HasRange, PlainAccess, plain_access, can_meet};
ghost use Rattle.sp_deps.specs.Bounds.{HasCounters};
ghost use Rattle.sp_deps.specs.Distances.{AreParallel, ArePresentAndParallel, IsDistanceOver};
ghost use Rattle.sp_deps.specs.Stages.{IsFootprint, loops_between};
ghost use Rattle.sp_meets.specs.Steps.{loops_of, parts_meet, IsFirst, IsOne, IsUnknown, IsLinearOf, IsDistanceOf};

use crate::steps::most_tries;
use sp_affine::Form;
use sp_deps::{Access, Dist, Footprint, LoopRange, distance, stage_meet};

// The first number of groups past `low`, up to `high`, at which two parts meet.
#[tactic(auto, using(crate::proofs::Later::parts_apart, crate::proofs::Later::first_below, crate::proofs::Later::first_above, crate::proofs::Later::first_at_end))]
fn first_between(a: &Footprint, b: &Footprint, low: u64, high: u64) -> u64
    requires a { IsFootprint a.now }
    requires b { IsFootprint b.now }
    requires common { take a.now.common a.now.loops.items ≡ take b.now.common b.now.loops.items }
    requires room { low < high }
    requires before { (t : ℕ) → 1 ≤ t → t ≤ low → parts_meet a.now b.now t ≡ false }
    ensures { IsFirst a.now b.now low high result }
{
    if high - low == 1 {
        return high;
    }
    let middle = low + (high - low) / 2;
    if stage_meet(a, b, middle) {
        first_between(a, b, low, middle)
    } else {
        first_between(a, b, middle, high)
    }
}

fn are_parallel(a: &[Form], b: &[Form]) -> bool
    ensures { IsTrue result ↔ AreParallel a.now b.now }
{
    let [f, fs @ ..] = a else {
        return true;
    };
    let [g, gs @ ..] = b else {
        return true;
    };
    f.has_linear_part_of(g) && are_parallel(fs, gs)
}

// Whether one of them has no index: of a register, or of a queue.
fn is_without(a: &[Form], b: &[Form]) -> bool
    ensures { IsTrue result → (a.now ≡ []) ⊎ (b.now ≡ []) }
{
    match a {
        [] => true,
        _ => b.is_empty(),
    }
}

/// How the linear parts of two accesses are: not equal; equal, where numbers of steps up to this one have to be tried; or
/// equal, where that number isn't known.
#[derive(Clone, Copy, Debug)]
pub enum Linear {
    Other,
    Equal(u64),
    TooMany,
}

#[tactic(auto, using(crate::proofs::Distance::linear_is, crate::proofs::Distance::linear_passes, crate::proofs::Distance::linear_uneven, crate::proofs::Parallel::most_without))]
fn linear_of(
    a: &[Form],
    b: &[Form],
    common: &[LoopRange],
    first: &[LoopRange],
    second: &[LoopRange],
) -> Linear
    requires a { All (λ f. HasCounters common.now first.now f.coefs) a.now }
    requires b { All (λ g. HasCounters common.now second.now g.coefs) b.now }
    ensures { IsLinearOf (loops_of common.now first.now second.now) (Some a.now) (Some b.now) result }
{
    if !are_parallel(a, b) {
        return Linear::Other;
    }
    if is_without(a, b) {
        return Linear::Equal(1);
    }
    if first.len() != second.len() {
        return Linear::TooMany;
    }
    match most_tries(a, b, common, first, second) {
        Some(n) => Linear::Equal(n),
        None => Linear::TooMany,
    }
}

fn linear_with(
    a: &Access,
    b: &Access,
    common: &[LoopRange],
    first: &[LoopRange],
    second: &[LoopRange],
) -> Linear
    requires a { IfSome a.now.forms (λ v. All (λ f. HasCounters common.now first.now f.coefs) v.items) }
    requires b { IfSome b.now.forms (λ v. All (λ f. HasCounters common.now second.now f.coefs) v.items) }
    ensures { IsLinearOf (loops_of common.now first.now second.now) (plain_access a.now).forms (plain_access b.now).forms result }
{
    match (&a.forms, &b.forms) {
        (Some(f), Some(g)) => linear_of(f, g, common, first, second),
        _ => Linear::Other,
    }
}

// Where the linear parts are equal.
#[tactic(auto, using(crate::proofs::Distance::parallel_some, crate::proofs::Distance::parallel_never, crate::proofs::Distance::parallel_unknown))]
fn parallel_distance(a: &Footprint, b: &Footprint, most: u64) -> Option<Dist>
    requires a { IsFootprint a.now }
    requires b { IsFootprint b.now }
    requires common { take a.now.common a.now.loops.items ≡ take b.now.common b.now.loops.items }
    ensures distance { (x y : PlainAccess) → IsOne a.now x → IsOne b.now y → can_meet x y ≡ true → 1 ≤ length (loops_between a.now b.now).common
        → IsLinearOf (loops_between a.now b.now) x.forms y.forms (Linear.Equal most) → IfSome result (λ d. IsDistanceOf a.now b.now x y d) }
    ensures none { IsNone result → (x y : PlainAccess) → IsLinearOf (loops_between a.now b.now) x.forms y.forms (Linear.Equal most) → IsUnknown (loops_between a.now b.now) x.forms y.forms }
{
    if most == u64::MAX {
        return None;
    }
    let high = most + 1;
    let groups = first_between(a, b, 0, high);
    if groups < high {
        Some(Dist::AtLeast(groups))
    } else {
        Some(Dist::Never)
    }
}

// Where they aren't, past 64 steps the two are taken to meet.
#[tactic(auto, using(crate::proofs::Distance::slanted_some))]
fn slanted_distance(a: &Footprint, b: &Footprint) -> Dist
    requires a { IsFootprint a.now }
    requires b { IsFootprint b.now }
    requires common { take a.now.common a.now.loops.items ≡ take b.now.common b.now.loops.items }
    ensures { (x y : PlainAccess) → IsOne a.now x → IsOne b.now y → can_meet x y ≡ true → 1 ≤ length (loops_between a.now b.now).common
        → IsLinearOf (loops_between a.now b.now) x.forms y.forms Linear.Other → IsDistanceOf a.now b.now x y result }
{
    Dist::AtLeast(first_between(a, b, 0, 65))
}

// The linear parts of two parts of one access each.
fn linear_between(a: &Footprint, b: &Footprint) -> Linear
    requires a { IsFootprint a.now }
    requires b { IsFootprint b.now }
    requires common { take a.now.common a.now.loops.items ≡ take b.now.common b.now.loops.items }
    ensures { (x y : PlainAccess) → IsOne a.now x → IsOne b.now y → IsLinearOf (loops_between a.now b.now) x.forms y.forms result }
{
    let [x] = a.accesses.as_slice() else {
        return Linear::TooMany;
    };
    let [y] = b.accesses.as_slice() else {
        return Linear::TooMany;
    };
    let (common, first) = a.loops.split_at(a.common as usize);
    let (_, second) = b.loops.split_at(b.common as usize);
    linear_with(x, y, common, first, second)
}

fn group_distance(a: &Footprint, b: &Footprint) -> Dist
    requires a { IsFootprint a.now }
    requires b { IsFootprint b.now }
    requires common { take a.now.common a.now.loops.items ≡ take b.now.common b.now.loops.items }
    ensures { result ≡ (if parts_meet a.now b.now 0 then AtLeast 0 else Never) }
{
    if stage_meet(a, b, 0) {
        Dist::AtLeast(0)
    } else {
        Dist::Never
    }
}

// Of two accesses of one body: neither has counters of its own.
fn loop_distance(
    x: &Access,
    y: &Access,
    common: &[LoopRange],
    first: &[LoopRange],
    second: &[LoopRange],
) -> Option<Dist>
    requires ranges { All HasRange common.now }
    requires x { IfSome x.now.forms (λ v. All (λ f. HasCounters common.now first.now f.coefs) v.items) }
    requires y { IfSome y.now.forms (λ v. All (λ f. HasCounters common.now second.now f.coefs) v.items) }
    ensures distance { can_meet (plain_access x.now) (plain_access y.now) ≡ true
        → IfSome result (λ d. IsDistanceOver (loops_of common.now first.now second.now) (plain_access x.now).forms (plain_access y.now).forms (length common.now) d) }
    ensures found { length first.now ≡ 0 → length second.now ≡ 0 → IsSome result }
{
    if !has_none(first) {
        return None;
    }
    if !has_none(second) {
        return None;
    }
    Some(distance(x, y, common))
}

fn has_none(loops: &[LoopRange]) -> bool
    ensures { IsTrue result ↔ (length loops.now ≡ 0) }
{
    loops.is_empty()
}

fn body_distance(a: &Footprint, b: &Footprint) -> Option<Dist>
    requires a { IsFootprint a.now }
    requires b { IsFootprint b.now }
    requires common { take a.now.common a.now.loops.items ≡ take b.now.common b.now.loops.items }
    ensures distance { (x y : PlainAccess) → IsOne a.now x → IsOne b.now y → can_meet x y ≡ true → IfSome result (λ d. IsDistanceOf a.now b.now x y d) }
    ensures found { length a.now.loops.items ≡ a.now.common → length b.now.loops.items ≡ b.now.common → (x y : PlainAccess) → IsOne a.now x → IsOne b.now y → IsSome result }
{
    let [x] = a.accesses.as_slice() else {
        return None;
    };
    let [y] = b.accesses.as_slice() else {
        return None;
    };
    let (common, first) = a.loops.split_at(a.common as usize);
    let (_, second) = b.loops.split_at(b.common as usize);
    loop_distance(x, y, common, first, second)
}

// Of two accesses in a loop, of which one has counters of its own.
#[tactic(auto, using(crate::proofs::Distance::some_common))]
fn own_distance(a: &Footprint, b: &Footprint) -> Option<Dist>
    requires a { IsFootprint a.now }
    requires b { IsFootprint b.now }
    requires common { take a.now.common a.now.loops.items ≡ take b.now.common b.now.loops.items }
    requires some { a.now.common ≢ 0 }
    ensures distance { (x y : PlainAccess) → IsOne a.now x → IsOne b.now y → can_meet x y ≡ true → IfSome result (λ d. IsDistanceOf a.now b.now x y d) }
    ensures none { IsNone result → (x y : PlainAccess) → IsOne a.now x → IsOne b.now y → ArePresentAndParallel x.forms y.forms × IsUnknown (loops_between a.now b.now) x.forms y.forms }
{
    match linear_between(a, b) {
        Linear::Other => Some(slanted_distance(a, b)),
        Linear::Equal(most) => parallel_distance(a, b, most),
        Linear::TooMany => None,
    }
}

/// The least distance of two parts of one access each, which can meet, over the counters that they have in common. It is found
/// where neither has counters of its own. None where it isn't found, which comes only in a loop and where linear parts are
/// equal: numbers pass 64 bits, or the two have indices by as many counters around, and not as many of their own.
#[tactic(auto, using(crate::proofs::Distance::group_is))]
pub fn least_distance(a: &Footprint, b: &Footprint) -> Option<Dist>
    requires a { IsFootprint a.now }
    requires b { IsFootprint b.now }
    requires common { take a.now.common a.now.loops.items ≡ take b.now.common b.now.loops.items }
    ensures distance { (x y : PlainAccess) → IsOne a.now x → IsOne b.now y → can_meet x y ≡ true → IfSome result (λ d. IsDistanceOf a.now b.now x y d) }
    ensures found { length a.now.loops.items ≡ a.now.common → length b.now.loops.items ≡ b.now.common → (x y : PlainAccess) → IsOne a.now x → IsOne b.now y → IsSome result }
    ensures none { IsNone result → (x y : PlainAccess) → IsOne a.now x → IsOne b.now y → 0 < a.now.common × ArePresentAndParallel x.forms y.forms × IsUnknown (loops_between a.now b.now) x.forms y.forms }
{
    if a.common == 0 {
        return Some(group_distance(a, b));
    }
    match body_distance(a, b) {
        Some(d) => Some(d),
        None => own_distance(a, b),
    }
}
