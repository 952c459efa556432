//! Tests of what the functions on distances ask of their arguments.
ghost use Rattle.std.specs.Prelude.{◌↔◌, IsTrue, IfSome};
ghost use Rattle.std.specs.List.{All};
ghost use Rattle.sp_affine.specs.Interval.{IsCounterRange};
ghost use Rattle.sp_deps.specs.Access.{HasRange};
ghost use Rattle.sp_deps.specs.Bounds.{HasCounters};
ghost use Rattle.sp_deps.specs.Stages.{IsFootprint};

use crate::access::{Access, Footprint, LoopRange};
use sp_affine::Form;

const GREATEST_END: i64 = 1 << 52;

/// Whether each range that is known goes up and has both its ends from -2^52 to 2^52.
pub fn are_loop_ranges(loops: &[LoopRange]) -> bool
    ensures { IsTrue result ↔ All HasRange loops.now }
{
    let [l, rest @ ..] = loops else {
        return true;
    };
    is_loop_range(l) && are_loop_ranges(rest)
}

fn is_loop_range(l: &LoopRange) -> bool
    ensures { IsTrue result ↔ HasRange l.now }
{
    match l.from {
        Some(range) => is_counter_range(&range),
        None => true,
    }
}

fn is_counter_range(range: &(i64, i64)) -> bool
    ensures { IsTrue result ↔ IsCounterRange range.now }
{
    range.0 <= range.1 && -GREATEST_END <= range.0 && range.1 <= GREATEST_END
}

/// Whether each form of an access has at most 1,024 coefficients, and one for each of these counters.
pub fn has_counters(access: &Access, common: &[LoopRange], own: &[LoopRange]) -> bool
    ensures { IsTrue result ↔ IfSome access.now.forms (λ v. All (λ f. HasCounters common.now own.now f.coefs) v.items) }
{
    match &access.forms {
        Some(forms) => have_counters(forms, common, own),
        None => true,
    }
}

fn have_counters(forms: &[Form], common: &[LoopRange], own: &[LoopRange]) -> bool
    ensures { IsTrue result ↔ All (λ f. HasCounters common.now own.now f.coefs) forms.now }
{
    let [f, rest @ ..] = forms else {
        return true;
    };
    has_counters_of(f, common, own) && have_counters(rest, common, own)
}

fn has_counters_of(form: &Form, common: &[LoopRange], own: &[LoopRange]) -> bool
    ensures { IsTrue result ↔ HasCounters common.now own.now form.now.coefs }
{
    form.coefs.len() <= 1024 && common.len() + own.len() <= form.coefs.len()
}

/// Whether a part of a body is one that `stage_meet` takes.
pub fn is_footprint(part: &Footprint) -> bool
    ensures { IsTrue result ↔ IsFootprint part.now }
{
    if part.common as usize > part.loops.len() || !are_loop_ranges(&part.loops) {
        return false;
    }
    let (common, own) = part.loops.split_at(part.common as usize);
    all_have_counters(&part.accesses, common, own)
}

fn all_have_counters(accesses: &[Access], common: &[LoopRange], own: &[LoopRange]) -> bool
    ensures { IsTrue result ↔ All (λ access. IfSome access.forms (λ v. All (λ f. HasCounters common.now own.now f.coefs) v.items)) accesses.now }
{
    for access in accesses {
        if !has_counters(access, common, own) {
            return false;
        }
    }
    true
}
