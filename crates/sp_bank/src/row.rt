//! Rows of schemes: those that have all but the last weight in common.
//!
//! Where the last weight grows by 1, the place of an access moves on by the constant of its last
//! dimension. So the constants are divided by the period once for a whole row.
ghost use Rattle.std.specs.Prelude.{◌≡◌, ◌↔◌, ℕ, ◌+◌, ◌*◌, ◌<◌, ◌≤◌, ◌++◌, ◌⊎◌, [], ◌∷◌, length, map, false, IsTrue, slice_index_or};
ghost use Rattle.std.specs.List.{All};
ghost use Rattle.sp_bank.specs.Banking.{IsAllowedSize};
ghost use Rattle.sp_bank.specs.Row.{AreStarts, AreSteps, ArePlacesFar, place_of};
ghost use Rattle.sp_bank.specs.Search.{SeparatesAll, unhinged};
ghost use Rattle.sp_bank.specs.Separation.{AreDifferent, AreFar, IsGroup, Separates};

use crate::clash::access_of;
use crate::different::different;
use crate::residue::{remainder, weighted_residue};
use smallvec::SmallVec;
use sp_affine::Form;
use std::alloc::Global;

/// For each number below `banks` whether all groups are separated by the schemes that have it as
/// the last weight and the weights `before` it.
pub fn separating_weights(
    alloc: Global,
    before: &[u32],
    banks: u32,
    block: u32,
    groups: &[Vec<Form>],
) -> [bool; 32]
    requires size { IsAllowedSize banks block (length before.now + 1) 0 }
    requires weights { All (λ a. a < banks) before.now }
    requires groups { All (λ g. IsGroup (length before.now + 1) g.items) groups.now }
    ensures { (w : ℕ) → w < banks → IsTrue (slice_index_or result w false) ↔
        SeparatesAll (unhinged banks block (before.now ++ w ∷ [])) (map (λ g. g.items) groups.now) }
{
    let mut separating = [true; 32];
    for group in groups {
        keep_separating(
            &mut separating,
            alloc,
            before,
            banks,
            block,
            group.as_slice(),
        );
    }
    separating
}

// Strikes out the last weights that do not separate a group.
fn keep_separating(
    separating: &mut [bool; 32],
    alloc: Global,
    before: &[u32],
    banks: u32,
    block: u32,
    group: &[Form],
)
    requires size { IsAllowedSize banks block (length before.now + 1) 0 }
    requires weights { All (λ a. a < banks) before.now }
    requires group { IsGroup (length before.now + 1) group.now }
    ensures { (w : ℕ) → w < banks → IsTrue (slice_index_or separating.new w false) ↔
        (IsTrue (slice_index_or separating.old w false) × Separates (unhinged banks block (before.now ++ w ∷ [])) group.now) }
{
    if is_none_left(separating, banks) {
        return;
    }
    let firsts = different(alloc, before.len() + 1, group);
    let starts = starts(alloc, before, banks * block, group, firsts.as_slice());
    let steps = steps(alloc, before.len(), banks * block, group, firsts.as_slice());
    keep_far(
        separating,
        starts.as_slice(),
        steps.as_slice(),
        banks,
        block,
    );
}

// Whether every last weight is struck out.
fn is_none_left(separating: &[bool; 32], banks: u32) -> bool
    requires { banks ≤ 32 }
    ensures { IsTrue result ↔ ((w : ℕ) → w < banks → ¬ (IsTrue (slice_index_or separating.now w false))) }
{
    for last in 0..banks {
        if separating[last as usize] {
            return false;
        }
    }
    true
}

// Strikes out the last weights at which two places are nearer than a block.
fn keep_far(separating: &mut [bool; 32], starts: &[u32], steps: &[u32], banks: u32, block: u32)
    requires size { IsAllowedSize banks block 1 0 }
    requires same { length steps.now ≡ length starts.now }
    requires starts { All (λ s. s < banks * block) starts.now }
    requires steps { All (λ s. s < banks * block) steps.now }
    ensures { (w : ℕ) → w < banks → IsTrue (slice_index_or separating.new w false) ↔
        (IsTrue (slice_index_or separating.old w false) × ArePlacesFar banks block starts.now steps.now w (length starts.now)) }
{
    for last in 0..banks {
        let separates = separating[last as usize];
        separating[last as usize] = stays(separates, starts, steps, last, banks, block);
    }
}

// Whether a last weight separates what came before, and puts no two places nearer than a block.
fn stays(separates: bool, starts: &[u32], steps: &[u32], last: u32, banks: u32, block: u32) -> bool
    requires size { IsAllowedSize banks block 1 0 }
    requires last { last < banks }
    requires same { length steps.now ≡ length starts.now }
    requires starts { All (λ s. s < banks * block) starts.now }
    requires steps { All (λ s. s < banks * block) steps.now }
    ensures { IsTrue result ↔
        (IsTrue separates × ArePlacesFar banks block starts.now steps.now last (length starts.now)) }
{
    separates && are_places_far(starts, steps, last, banks, block)
}

fn starts(
    alloc: Global,
    before: &[u32],
    period: u32,
    group: &[Form],
    firsts: &[usize],
) -> SmallVec<u32, 33>
    requires few_weights { length before.now ≤ 2 }
    requires weights { All (λ a. a < 32) before.now }
    requires some { 0 < period }
    requires small { period ≤ 128 }
    requires group { IsGroup (length before.now + 1) group.now }
    requires firsts { AreDifferent (length before.now + 1) group.now firsts.now }
    requires few { length firsts.now ≤ 33 }
    ensures starts { AreStarts before.now period group.now firsts.now result.items }
    ensures same { length result.items ≡ length firsts.now }
    ensures below { All (λ s. s < period) result.items }
{
    let rank = before.len() + 1;
    let mut made = SmallVec::new(alloc);
    for first in firsts {
        let access = access_of(rank, group, *first);
        made.push_reserved(weighted_residue(before, &access[..before.len()], period));
    }
    made
}

fn steps(
    alloc: Global,
    last: usize,
    period: u32,
    group: &[Form],
    firsts: &[usize],
) -> SmallVec<u32, 33>
    requires few_weights { last ≤ 2 }
    requires some { 0 < period }
    requires small { period ≤ 128 }
    requires group { IsGroup (last + 1) group.now }
    requires firsts { AreDifferent (last + 1) group.now firsts.now }
    requires few { length firsts.now ≤ 33 }
    ensures steps { AreSteps last period group.now firsts.now result.items }
    ensures same { length result.items ≡ length firsts.now }
    ensures below { All (λ s. s < period) result.items }
{
    let mut made = SmallVec::new(alloc);
    for first in firsts {
        let access = access_of(last + 1, group, *first);
        let form = &access[last];
        made.push_reserved(remainder(form.constant, period));
    }
    made
}

fn are_places_far(starts: &[u32], steps: &[u32], last: u32, banks: u32, block: u32) -> bool
    requires size { IsAllowedSize banks block 1 0 }
    requires last { last < banks }
    requires same { length steps.now ≡ length starts.now }
    requires starts { All (λ s. s < banks * block) starts.now }
    requires steps { All (λ s. s < banks * block) steps.now }
    ensures { IsTrue result ↔ ArePlacesFar banks block starts.now steps.now last (length starts.now) }
{
    let mut taken = [false; 128];
    for (i, start) in starts.iter().enumerate() {
        let place = (*start + last * steps[i]) % (banks * block);
        if !is_far_from_all(&taken, place, banks, block) {
            return false;
        }
        taken[place as usize] = true;
    }
    true
}

// Whether no place that is taken is nearer than a block, round the period.
fn is_far_from_all(taken: &[bool; 128], place: u32, banks: u32, block: u32) -> bool
    requires size { IsAllowedSize banks block 1 0 }
    requires inside { place < banks * block }
    ensures { IsTrue result ↔ ((y : ℕ) → y < banks * block → IsTrue (slice_index_or taken.now y false) →
        AreFar (unhinged banks block []) y place) }
{
    let period = banks * block;
    for distance in 0..block {
        let up = taken[around(place + distance, period)];
        let down = taken[around(place + (period - distance), period)];
        if up || down {
            return false;
        }
    }
    true
}

// A number below twice the period, within the period.
fn around(number: u32, period: u32) -> usize
    requires twice { number < 2 * period }
    requires small { period ≤ 128 }
    ensures below { result < period }
    ensures same { (result ≡ number) ⊎ (result + period ≡ number) }
{
    if number < period {
        number as usize
    } else {
        (number - period) as usize
    }
}
