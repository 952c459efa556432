//! The least number of groups that two accesses are apart where they meet.
ghost use Rattle.std.specs.Prelude.{◌≡◌, ◌<◌, ◌∷◌, [], ◌↔◌, ◌==◌, ◌&&◌, ◌||◌, not, nat_lt, if◌then◌else◌, ℕ, IsTrue, true, length, map, flat_map, take, IfOk, IfSome};
ghost use Rattle.sp_deps.specs.declared.class.Class.TheVariants.{Same};
ghost use Rattle.sp_deps.specs.Access.{plain_access, can_meet};
ghost use Rattle.sp_deps.specs.Classes.{may_meet};
ghost use Rattle.sp_deps.specs.Stages.{IsFootprint};
ghost use Rattle.sp_core.specs.Declarations.{is_among};
ghost use Rattle.sp_meets.specs.Between.{goes_on, between, may_meet_on, meet_in, views_meet_at, meet_over};
ghost use Rattle.sp_meets.specs.Entries.{some_meet_at, sooner, groups_of, IsSameRange, IsSameLoop, AreSameLoops, IsPart, IsLeastFrom};
ghost use Rattle.sp_meets.specs.Meets.{IsLeastOf};
ghost use Rattle.sp_meets.specs.Plain.{plain_parts, plain_view};
ghost use Rattle.sp_meets.specs.Sites.{PlainPart};
ghost use Rattle.sp_meets.specs.Steps.{loops_of};

use crate::least::least_distance;
use crate::view::{View, is_among};
use sp_deps::{Access, Dist, Footprint, LoopRange, is_footprint, stage_meet};
use std::alloc::AllocError;

fn both(a: bool, b: bool) -> bool
    ensures { result ≡ (a && b) }
{
    a && b
}

fn either(a: bool, b: bool) -> bool
    ensures { result ≡ (a || b) }
{
    a || b
}

fn can_meet(a: &Access, b: &Access) -> bool
    ensures { result ≡ can_meet (plain_access a.now) (plain_access b.now) }
{
    a.mem == b.mem && (a.writes || b.writes)
}

fn is_same_pair(a: &(i64, i64), b: &(i64, i64)) -> bool
    ensures { IsTrue result ↔ ((a.now.0 ≡ b.now.0) × (a.now.1 ≡ b.now.1)) }
{
    a.0 == b.0 && a.1 == b.1
}

fn is_same_range(a: &LoopRange, b: &LoopRange) -> bool
    ensures { IsTrue result ↔ IsSameRange a.now.from b.now.from }
{
    match (a.from, b.from) {
        (None, None) => true,
        (Some(r), Some(s)) => is_same_pair(&r, &s),
        (None, Some(_)) => false,
        (Some(_), None) => false,
    }
}

fn is_same_loop(a: &LoopRange, b: &LoopRange) -> bool
    ensures { IsTrue result ↔ IsSameLoop a.now b.now }
{
    is_same_range(a, b) && (a.by == b.by && a.par == b.par)
}

// Of two lists of one length.
fn are_same_loops(a: &[LoopRange], b: &[LoopRange]) -> bool
    ensures { IsTrue result ↔ AreSameLoops a.now b.now }
{
    let [l, ls @ ..] = a else {
        return true;
    };
    let [m, ms @ ..] = b else {
        return true;
    };
    is_same_loop(l, m) && are_same_loops(ls, ms)
}

fn common_loops(p: &Footprint) -> &[LoopRange]
    requires { IsFootprint p.now }
    ensures { result.now ≡ take p.now.common p.now.loops.items }
{
    let (common, _) = p.loops.split_at(p.common as usize);
    common
}

fn have_same_loops(p: &Footprint, q: &Footprint) -> bool
    requires p { IsFootprint p.now }
    requires q { IsFootprint q.now }
    ensures { IsTrue result → take p.now.common p.now.loops.items ≡ take q.now.common q.now.loops.items }
{
    if p.common != q.common {
        return false;
    }
    let first = common_loops(p);
    let second = common_loops(q);
    are_same_loops(first, second)
}

// Whether two parts share a write port: two parts of a body that may be at work at once, on a memory on the chip.
fn share_port(chip: usize, v: &View, w: &View, mem: u32) -> bool
    ensures { result ≡ ((not (v.now.part == w.now.part) && v.now.at_once) && nat_lt mem chip) }
{
    (v.part != w.part && v.at_once) && (mem as usize) < chip
}

// In one group, the first before the second.
fn meet_in_group(before: bool, shares: bool, p: &Footprint, q: &Footprint) -> bool
    requires a { IsFootprint p.now }
    requires b { IsFootprint q.now }
    requires common { take p.now.common p.now.loops.items ≡ take q.now.common q.now.loops.items }
    ensures { (P Q : PlainPart) → IsPart p.now P → IsPart q.now Q → can_meet P.access Q.access ≡ true
        → result ≡ (before && (shares || may_meet (loops_of P.common P.own Q.own) Same P.access.forms Q.access.forms)) }
{
    let meets = stage_meet(p, q, 0);
    both(before, either(shares, meets))
}

fn groups_of(d: Dist) -> Option<u64>
    ensures { result ≡ groups_of d }
{
    match d {
        Dist::Never => None,
        Dist::AtLeast(groups) => Some(groups),
    }
}

// In a later group.
fn later_least(shares: bool, p: &Footprint, q: &Footprint) -> Result<Option<u64>, AllocError>
    requires a { IsFootprint p.now }
    requires b { IsFootprint q.now }
    requires common { take p.now.common p.now.loops.items ≡ take q.now.common q.now.loops.items }
    ensures { (P Q : PlainPart) → IsPart p.now P → IsPart q.now Q → can_meet P.access Q.access ≡ true → 0 < length P.common
        → IfOk result (λ d. IsLeastFrom 1 (λ t. shares || may_meet_on (loops_of P.common P.own Q.own) P.access.forms Q.access.forms t) d) }
{
    if shares {
        return Ok(Some(1));
    }
    let Some(d) = least_distance(p, q) else {
        return Err(AllocError);
    };
    Ok(groups_of(d))
}

// Whether a controller has no counter, or a copy of the memory for each of its groups.
fn has_one_group(v: &View, p: &Footprint, mem: u32) -> bool
    ensures { result ≡ ((p.now.common == 0) || is_among mem v.now.copied.items) }
{
    p.common == 0 || is_among(mem, &v.copied)
}

// Of two accesses that can meet, as parts of one body.
fn pair_least(
    chip: usize,
    v: &View,
    w: &View,
    before: bool,
    p: &Footprint,
    q: &Footprint,
    mem: u32,
) -> Result<Option<u64>, AllocError>
    requires a { IsFootprint p.now }
    requires b { IsFootprint q.now }
    requires common { take p.now.common p.now.loops.items ≡ take q.now.common q.now.loops.items }
    ensures { (P Q : PlainPart) → IsPart p.now P → IsPart q.now Q → can_meet P.access Q.access ≡ true → P.access.mem ≡ mem
        → IfOk result (λ d. IsLeastOf (meet_in chip (plain_view v.now) (plain_view w.now) before P Q) d) }
{
    let shares = share_port(chip, v, w, mem);
    if meet_in_group(before, shares, p, q) {
        return Ok(Some(0));
    }
    if has_one_group(v, p, mem) {
        return Ok(None);
    }
    later_least(shares, p, q)
}

// Parts that aren't parts of one body aren't compared.
fn met_least(
    chip: usize,
    v: &View,
    w: &View,
    before: bool,
    p: &Footprint,
    q: &Footprint,
    x: &Access,
    y: &Access,
) -> Result<Option<u64>, AllocError>
    requires first { p.now.accesses.items ≡ x.now ∷ [] }
    requires second { q.now.accesses.items ≡ y.now ∷ [] }
    requires can { can_meet (plain_access x.now) (plain_access y.now) ≡ true }
    ensures { IfOk result (λ d. IsLeastOf (some_meet_at chip (plain_view v.now) (plain_view w.now) before (plain_parts p.now) (plain_parts q.now)) d) }
{
    if !is_footprint(p) {
        return Err(AllocError);
    }
    if !is_footprint(q) {
        return Err(AllocError);
    }
    if !have_same_loops(p, q) {
        return Err(AllocError);
    }
    pair_least(chip, v, w, before, p, q, x.mem)
}

fn access_least(
    chip: usize,
    v: &View,
    w: &View,
    before: bool,
    p: &Footprint,
    q: &Footprint,
    x: &Access,
    y: &Access,
) -> Result<Option<u64>, AllocError>
    requires first { p.now.accesses.items ≡ x.now ∷ [] }
    requires second { q.now.accesses.items ≡ y.now ∷ [] }
    ensures { IfOk result (λ d. IsLeastOf (some_meet_at chip (plain_view v.now) (plain_view w.now) before (plain_parts p.now) (plain_parts q.now)) d) }
{
    if can_meet(x, y) {
        return met_least(chip, v, w, before, p, q, x, y);
    }
    Ok(None)
}

// The access of a part that has one.
fn single(p: &Footprint) -> Option<&Access>
    ensures { IfSome result (λ x. p.now.accesses.items ≡ x.now ∷ []) }
{
    let [x] = p.accesses.as_slice() else {
        return None;
    };
    Some(x)
}

// Of two parts of one access each.
fn part_least(
    chip: usize,
    v: &View,
    w: &View,
    before: bool,
    p: &Footprint,
    q: &Footprint,
) -> Result<Option<u64>, AllocError>
    ensures { IfOk result (λ d. IsLeastOf (some_meet_at chip (plain_view v.now) (plain_view w.now) before (plain_parts p.now) (plain_parts q.now)) d) }
{
    let Some(x) = single(p) else {
        return Err(AllocError);
    };
    let Some(y) = single(q) else {
        return Err(AllocError);
    };
    access_least(chip, v, w, before, p, q, x, y)
}

fn lesser(m: u64, n: u64) -> u64
    ensures { result ≡ (if nat_lt n m then n else m) }
{
    if n < m {
        return n;
    }
    m
}

fn sooner(a: Option<u64>, b: Option<u64>) -> Option<u64>
    ensures { result ≡ sooner a b }
{
    match (a, b) {
        (None, n) => n,
        (Some(m), None) => Some(m),
        (Some(m), Some(n)) => Some(lesser(m, n)),
    }
}

// Of a part and several others.
fn least_with(
    chip: usize,
    v: &View,
    w: &View,
    before: bool,
    p: &Footprint,
    others: &[Footprint],
) -> Result<Option<u64>, AllocError>
    ensures { IfOk result (λ d. IsLeastOf (some_meet_at chip (plain_view v.now) (plain_view w.now) before (plain_parts p.now) (flat_map plain_parts others.now)) d) }
{
    let mut best = None;
    for q in others {
        let found = part_least(chip, v, w, before, p, q)?;
        best = sooner(best, found);
    }
    Ok(best)
}

// Of several parts and several others.
fn least_among(
    chip: usize,
    v: &View,
    w: &View,
    before: bool,
    parts: &[Footprint],
    others: &[Footprint],
) -> Result<Option<u64>, AllocError>
    ensures { IfOk result (λ d. IsLeastOf (some_meet_at chip (plain_view v.now) (plain_view w.now) before (flat_map plain_parts parts.now) (flat_map plain_parts others.now)) d) }
{
    let mut best = None;
    for p in parts {
        let found = least_with(chip, v, w, before, p, others)?;
        best = sooner(best, found);
    }
    Ok(best)
}

// Of two accesses, as parts of the innermost controller around both.
fn views_least(chip: usize, v: &View, w: &View, before: bool) -> Result<Option<u64>, AllocError>
    ensures { IfOk result (λ d. IsLeastOf (views_meet_at chip (plain_view v.now) (plain_view w.now) before) d) }
{
    least_among(chip, v, w, before, &v.parts, &w.parts)
}

/// Of two accesses, by the controllers around them.
pub fn least_between(
    chip: usize,
    before: bool,
    a: &[View],
    b: &[View],
) -> Result<Option<u64>, AllocError>
    ensures { IfOk result (λ d. IsLeastOf (meet_over chip before (between (map plain_view a.now) (map plain_view b.now))) d) }
{
    let [v, p @ ..] = a else {
        return Ok(None);
    };
    let [w, q @ ..] = b else {
        return Ok(None);
    };
    if v.streams {
        return Ok(None);
    }
    if go_on(v, w, p, q) {
        return least_between(chip, before, p, q);
    }
    views_least(chip, v, w, before)
}

// Whether there is a controller.
fn goes_on(views: &[View]) -> bool
    ensures { result ≡ goes_on (map plain_view views.now) }
{
    if views.is_empty() {
        return false;
    }
    true
}

// Whether both stand in one part of a controller, and in other controllers there.
fn go_on(v: &View, w: &View, p: &[View], q: &[View]) -> bool
    ensures { result ≡ ((v.now.part == w.now.part) && (goes_on (map plain_view p.now) && goes_on (map plain_view q.now))) }
{
    let inside = both(goes_on(p), goes_on(q));
    both(v.part == w.part, inside)
}
