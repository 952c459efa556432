//! Whether two parts of a loop's body may meet.
ghost use Rattle.std.specs.Prelude.{◌≡◌, ◌≤◌, ◌+◌, length, take, drop, map, Some, IfSome};
ghost use Rattle.std.specs.List.{All, list_any};
ghost use Rattle.sp_deps.specs.Access.{PlainAccess, HasRange, plain_access};
ghost use Rattle.sp_deps.specs.Bounds.{HasCounters, AreRanges};
ghost use Rattle.sp_deps.specs.Classes.{may_meet};
ghost use Rattle.sp_deps.specs.Distances.{earlier_may_meet};
ghost use Rattle.sp_deps.specs.Stages.{loops_between, plain_accesses, meets_up_to, meet_later, meet_within, stages_meet, IsFootprint};

use crate::access::{Access, Footprint, LoopRange};
use crate::class::{Class, may_meet};
use crate::pairs::can_meet;
use sp_affine::Form;

/// Whether some access of `a` and some access of `b` may meet: in one group of iterations where `within` is 0, and else
/// from 1 to `within` groups apart.
///
/// The first `common` counters are those of the loop over which the two are compared, in both.
pub fn stage_meet(a: &Footprint, b: &Footprint, within: u64) -> bool
    requires a { IsFootprint a.now }
    requires b { IsFootprint b.now }
    requires common { take a.now.common a.now.loops.items ≡ take b.now.common b.now.loops.items }
    ensures { result ≡ stages_meet (loops_between a.now b.now) (plain_accesses a.now) (plain_accesses b.now) within }
{
    let (common, first) = a.loops.split_at(a.common as usize);
    let (_, second) = b.loops.split_at(b.common as usize);
    some_meet(&a.accesses, &b.accesses, common, first, second, within)
}

fn some_meet(
    a: &[Access],
    b: &[Access],
    common: &[LoopRange],
    first: &[LoopRange],
    second: &[LoopRange],
    within: u64,
) -> bool
    requires a { All (λ x. IfSome x.forms (λ v. All (λ f. HasCounters common.now first.now f.coefs) v.items)) a.now }
    requires b { All (λ x. IfSome x.forms (λ v. All (λ f. HasCounters common.now second.now f.coefs) v.items)) b.now }
    requires ranges { AreRanges (record { common = common.now; first = first.now; second = second.now }) }
    ensures { result ≡ stages_meet (record { common = common.now; first = first.now; second = second.now }) (map plain_access a.now) (map plain_access b.now) within }
{
    let [access, rest @ ..] = a else {
        return false;
    };
    meets_some(access, b, common, first, second, within)
        || some_meet(rest, b, common, first, second, within)
}

fn meets_some(
    a: &Access,
    b: &[Access],
    common: &[LoopRange],
    first: &[LoopRange],
    second: &[LoopRange],
    within: u64,
) -> bool
    requires a { IfSome a.now.forms (λ v. All (λ f. HasCounters common.now first.now f.coefs) v.items) }
    requires b { All (λ x. IfSome x.forms (λ v. All (λ f. HasCounters common.now second.now f.coefs) v.items)) b.now }
    requires ranges { AreRanges (record { common = common.now; first = first.now; second = second.now }) }
    ensures { result ≡ list_any (λ (b : PlainAccess). meet_within (record { common = common.now; first = first.now; second = second.now }) (plain_access a.now) b within) (map plain_access b.now) }
{
    let [access, rest @ ..] = b else {
        return false;
    };
    meet_within(a, access, common, first, second, within)
        || meets_some(a, rest, common, first, second, within)
}

fn meet_within(
    a: &Access,
    b: &Access,
    common: &[LoopRange],
    first: &[LoopRange],
    second: &[LoopRange],
    within: u64,
) -> bool
    requires a { IfSome a.now.forms (λ v. All (λ f. HasCounters common.now first.now f.coefs) v.items) }
    requires b { IfSome b.now.forms (λ v. All (λ f. HasCounters common.now second.now f.coefs) v.items) }
    requires ranges { AreRanges (record { common = common.now; first = first.now; second = second.now }) }
    ensures { result ≡ meet_within (record { common = common.now; first = first.now; second = second.now }) (plain_access a.now) (plain_access b.now) within }
{
    if !can_meet(a, b) {
        return false;
    }
    if within == 0 {
        return meet_in(Class::Same, a, b, common, first, second);
    }
    if common.is_empty() {
        return false;
    }
    earlier_meet(common.len() - 1, a, b, common, first, second)
        || steps_meet(within, a, b, common, first, second)
}

fn meet_in(
    class: Class,
    a: &Access,
    b: &Access,
    common: &[LoopRange],
    first: &[LoopRange],
    second: &[LoopRange],
) -> bool
    requires a { IfSome a.now.forms (λ v. All (λ f. HasCounters common.now first.now f.coefs) v.items) }
    requires b { IfSome b.now.forms (λ v. All (λ f. HasCounters common.now second.now f.coefs) v.items) }
    requires ranges { AreRanges (record { common = common.now; first = first.now; second = second.now }) }
    ensures { result ≡ may_meet (record { common = common.now; first = first.now; second = second.now }) class (plain_access a.now).forms (plain_access b.now).forms }
{
    match (&a.forms, &b.forms) {
        (Some(f), Some(g)) => may_meet(class, f, g, common, first, second),
        _ => true,
    }
}

// Whether some of the first `n` classes of earlier counters is not ruled out.
fn earlier_meet(
    n: usize,
    a: &Access,
    b: &Access,
    common: &[LoopRange],
    first: &[LoopRange],
    second: &[LoopRange],
) -> bool
    requires a { IfSome a.now.forms (λ v. All (λ f. HasCounters common.now first.now f.coefs) v.items) }
    requires b { IfSome b.now.forms (λ v. All (λ f. HasCounters common.now second.now f.coefs) v.items) }
    requires ranges { AreRanges (record { common = common.now; first = first.now; second = second.now }) }
    ensures { result ≡ earlier_may_meet (record { common = common.now; first = first.now; second = second.now }) (plain_access a.now).forms (plain_access b.now).forms n }
{
    for i in 0..n {
        if meet_in(Class::Earlier(i), a, b, common, first, second) {
            return true;
        }
    }
    false
}

// Whether some number of steps from 1 to `n` is not ruled out.
fn steps_meet(
    n: u64,
    a: &Access,
    b: &Access,
    common: &[LoopRange],
    first: &[LoopRange],
    second: &[LoopRange],
) -> bool
    requires a { IfSome a.now.forms (λ v. All (λ f. HasCounters common.now first.now f.coefs) v.items) }
    requires b { IfSome b.now.forms (λ v. All (λ f. HasCounters common.now second.now f.coefs) v.items) }
    requires ranges { AreRanges (record { common = common.now; first = first.now; second = second.now }) }
    ensures { result ≡ meets_up_to (record { common = common.now; first = first.now; second = second.now }) (plain_access a.now) (plain_access b.now) n }
{
    for t in 0..n {
        if meet_in(Class::Steps(t + 1), a, b, common, first, second) {
            return true;
        }
    }
    false
}
