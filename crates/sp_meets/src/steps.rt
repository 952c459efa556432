//! How many steps of the last counter have to be tried to find the first one at which two accesses may meet, where their
//! linear parts are equal.
ghost use Rattle.std.specs.Prelude.{◌≡◌, ◌≤◌, ◌<◌, ◌+◌, ◌^◌, ◌-ℤ◌, ◌*ℤ◌, ℕ, pos, length, unsigned_abs, Some, IfSome, IsNone};
ghost use Rattle.std.specs.List.{All};
ghost use Rattle.sp_deps.specs.Access.{advance};
ghost use Rattle.sp_deps.specs.Bounds.{HasCounters};
ghost use Rattle.sp_deps.specs.Classes.{of_common, of_own, last_step};
ghost use Rattle.sp_meets.specs.declared.steps.Tries.TheVariants.{Every, Unknown};
ghost use Rattle.sp_deps.specs.Distances.{AreParallel};
ghost use Rattle.sp_meets.specs.Bits.{PassesBits, NumbersPass};
ghost use Rattle.sp_meets.specs.Reach.{part_reach, reach, is_unbounded, unbounded};
ghost use Rattle.sp_meets.specs.Steps.{loops_of, AreTriesBy, AreTriesOf, AreTriesOfAll, IsBoth, IsJoined, IsMost, IsPast};

use sp_affine::Form;
use sp_deps::LoopRange;

/// Which numbers of steps have to be tried: so many more do the same, so those up to that number; numbers up to this one,
/// since none past it can meet; or it isn't known, since numbers pass 64 bits.
#[derive(Clone, Copy, Debug)]
pub enum Tries {
    Every(u64),
    UpTo(u64),
    Unknown,
}

/// The coefficients of a loop's counters, and those of the access's own.
#[derive(Clone, Copy, Debug)]
struct Coefs<'a> {
    common: &'a [i64],
    own: &'a [i64],
}

fn parts<'a>(coefs: &'a [i64], common: &[LoopRange], own: &[LoopRange]) -> Coefs<'a>
    requires { length common.now + length own.now ≤ length coefs.now }
    ensures common { result.common.now ≡ of_common common.now own.now coefs.now }
    ensures own { result.own.now ≡ of_own common.now own.now coefs.now }
{
    let (_, inside) = coefs.split_at(coefs.len() - (common.len() + own.len()));
    let (common, own) = inside.split_at(common.len());
    Coefs { common, own }
}

fn part_reach(x: &i64, l: &LoopRange) -> Option<u128>
    ensures some { IfSome result (λ n. part_reach (unsigned_abs x.now) l.now.from ≡ Some n) }
    ensures none { IsNone result → (n : ℕ) → part_reach (unsigned_abs x.now) l.now.from ≡ Some n → 2 ^ 128 ≤ n }
{
    let size = u128::from(x.unsigned_abs());
    match l.from {
        Some((least, greatest)) => {
            let end = least.unsigned_abs().max(greatest.unsigned_abs());
            size.checked_mul(u128::from(end))
        }
        None => { if size == 0 { Some(0) } else { None } }
    }
}

/// How far counters of an access's own take an index.
#[tactic(auto, using(crate::proofs::Unknown::sum_first, crate::proofs::Unknown::sum_second))]
fn reach(coefs: &[i64], loops: &[LoopRange]) -> Option<u128>
    ensures some { IfSome result (λ n. reach coefs.now loops.now ≡ Some n) }
    ensures none { IsNone result → (n : ℕ) → reach coefs.now loops.now ≡ Some n → 2 ^ 128 ≤ n }
{
    let [x, xs @ ..] = coefs else {
        return Some(0);
    };
    let [l, others @ ..] = loops else {
        return Some(0);
    };
    let first = part_reach(x, l)?;
    let rest = reach(xs, others)?;
    first.checked_add(rest)
}

/// Whether a counter without a known range counts.
fn is_unbounded(x: &i64, l: &LoopRange) -> bool
    ensures { result ≡ is_unbounded x.now l.now }
{
    l.from.is_none() && x.unsigned_abs() != 0
}

/// The size of the coefficient of the first such counter.
fn unbounded(coefs: &[i64], loops: &[LoopRange]) -> Option<u64>
    ensures { result ≡ unbounded coefs.now loops.now }
{
    let [x, xs @ ..] = coefs else {
        return None;
    };
    let [l, others @ ..] = loops else {
        return None;
    };
    if is_unbounded(x, l) {
        Some(x.unsigned_abs())
    } else {
        unbounded(xs, others)
    }
}

/// How far the last counter goes on in a group, times the size of its coefficient.
fn last_step(b: &[i64], loops: &[LoopRange]) -> u128
    ensures { result ≡ unsigned_abs (last_step b.now loops.now) }
{
    let [y, ys @ ..] = b else {
        return 0;
    };
    let [l, others @ ..] = loops else {
        return 0;
    };
    if ys.is_empty() && others.is_empty() {
        return far(y, l);
    }
    last_step(ys, others)
}

fn far(y: &i64, l: &LoopRange) -> u128
    ensures { result ≡ unsigned_abs (y.now *ℤ pos (advance l.now)) }
{
    let steps = u64::from(l.by) * u64::from(l.par);
    u128::from(y.unsigned_abs()) * u128::from(steps)
}

fn most_steps(start: u64, p: u128, q: u128, step: u128) -> Option<u64>
    requires { 0 < step }
    ensures some { IfSome result (λ n. IsPast start p q step n) }
    ensures none { IsNone result → PassesBits (start + (p + q) + 1) }
{
    let reach = p.checked_add(q)?.checked_add(u128::from(start))?;
    let most = u64::try_from(reach / step).ok()?;
    Some(most.max(1))
}

// By the coefficients of two indices, and how far their constants are apart.
#[tactic(auto, using(crate::proofs::Unknown::first_unknown, crate::proofs::Unknown::second_unknown, crate::proofs::Unknown::steps_unknown))]
fn tries_by(
    xs: &[i64],
    ys: &[i64],
    start: u64,
    common: &[LoopRange],
    first: &[LoopRange],
    second: &[LoopRange],
) -> Tries
    requires xs { length common.now + length first.now ≤ length xs.now }
    requires ys { length common.now + length second.now ≤ length ys.now }
    ensures { AreTriesBy common.now first.now second.now xs.now ys.now start result }
{
    let a = parts(xs, common, first);
    let b = parts(ys, common, second);
    let step = last_step(b.common, common);
    if step == 0 {
        return Tries::Every(1);
    }
    if let Some(p) = unbounded(a.own, first) {
        return Tries::Every(p);
    }
    if let Some(p) = unbounded(b.own, second) {
        return Tries::Every(p);
    }
    let Some(p) = reach(a.own, first) else {
        return Tries::Unknown;
    };
    let Some(q) = reach(b.own, second) else {
        return Tries::Unknown;
    };
    match most_steps(start, p, q, step) {
        Some(n) => Tries::UpTo(n),
        None => Tries::Unknown,
    }
}

fn apart(x: &i64, y: &i64) -> u64
    ensures { result ≡ unsigned_abs (y.now -ℤ x.now) }
{
    x.abs_diff(*y)
}

/// Of two indices with equal coefficients, of accesses with as many counters of their own.
fn tries_of(
    f: &Form,
    g: &Form,
    common: &[LoopRange],
    first: &[LoopRange],
    second: &[LoopRange],
) -> Tries
    requires f { HasCounters common.now first.now f.now.coefs }
    requires g { HasCounters common.now second.now g.now.coefs }
    requires parallel { f.now.coefs ≡ g.now.coefs }
    requires alike { length first.now ≡ length second.now }
    ensures { AreTriesOf (loops_of common.now first.now second.now) f.now g.now result }
{
    let start = apart(&f.constant, &g.constant);
    tries_by(&f.coefs, &g.coefs, start, common, first, second)
}

// Where each so many steps more do the same.
fn both(p: u64, q: u64) -> Tries
    ensures { IsBoth p q result }
{
    match p.checked_mul(q) {
        Some(n) => Tries::Every(n),
        None => Tries::Unknown,
    }
}

fn after_every(p: u64, rest: Tries) -> Tries
    ensures { IsJoined (Every p) rest result }
{
    match rest {
        Tries::Every(q) => both(p, q),
        Tries::UpTo(n) => Tries::UpTo(n),
        Tries::Unknown => Tries::Unknown,
    }
}

fn after_unknown(rest: Tries) -> Tries
    ensures { IsJoined Unknown rest result }
{
    match rest {
        Tries::Every(_) => Tries::Unknown,
        Tries::UpTo(n) => Tries::UpTo(n),
        Tries::Unknown => Tries::Unknown,
    }
}

/// Of an index and the others.
fn joined(one: Tries, rest: Tries) -> Tries
    ensures { IsJoined one rest result }
{
    match one {
        Tries::Every(p) => after_every(p, rest),
        Tries::UpTo(n) => Tries::UpTo(n),
        Tries::Unknown => after_unknown(rest),
    }
}

/// Of all indices.
#[tactic(auto, using(crate::proofs::Parallel::tries_of_none, crate::proofs::Parallel::tries_of_few, crate::proofs::Parallel::joined_tries))]
fn tries_of_all(
    a: &[Form],
    b: &[Form],
    common: &[LoopRange],
    first: &[LoopRange],
    second: &[LoopRange],
) -> Tries
    requires a { All (λ f. HasCounters common.now first.now f.coefs) a.now }
    requires b { All (λ g. HasCounters common.now second.now g.coefs) b.now }
    requires parallel { AreParallel a.now b.now }
    requires alike { length first.now ≡ length second.now }
    ensures { AreTriesOfAll (loops_of common.now first.now second.now) a.now b.now result }
{
    let [f, fs @ ..] = a else {
        return Tries::Every(1);
    };
    let [g, gs @ ..] = b else {
        return Tries::Every(1);
    };
    let rest = tries_of_all(fs, gs, common, first, second);
    joined(tries_of(f, g, common, first, second), rest)
}

/// How many steps have to be tried, where that is known.
#[tactic(auto, using(crate::proofs::Parallel::most_by_every, crate::proofs::Parallel::most_by_none_past, crate::proofs::Parallel::every_passes, crate::proofs::Parallel::none_past_passes))]
pub fn most_tries(
    a: &[Form],
    b: &[Form],
    common: &[LoopRange],
    first: &[LoopRange],
    second: &[LoopRange],
) -> Option<u64>
    requires a { All (λ f. HasCounters common.now first.now f.coefs) a.now }
    requires b { All (λ g. HasCounters common.now second.now g.coefs) b.now }
    requires parallel { AreParallel a.now b.now }
    requires alike { length first.now ≡ length second.now }
    ensures some { IfSome result (λ n. IsMost (loops_of common.now first.now second.now) a.now b.now n) }
    ensures passes { IfSome result (λ n. PassesBits n → NumbersPass (loops_of common.now first.now second.now) a.now b.now) }
    ensures none { IsNone result → NumbersPass (loops_of common.now first.now second.now) a.now b.now }
{
    match tries_of_all(a, b, common, first, second) {
        Tries::Every(n) => Some(n),
        Tries::UpTo(n) => Some(n),
        Tries::Unknown => None,
    }
}
