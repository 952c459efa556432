//! The different constants of a group, and how many banks they need.
ghost use Rattle.std.specs.Prelude.{◌≡◌, ◌≢◌, ◌<◌, ◌≤◌, ℕ, List, length, map, slice_index, IsTrue};
ghost use Rattle.std.specs.List.{All};
ghost use Rattle.sp_bank.specs.Banking.{Banking};
ghost use Rattle.sp_bank.specs.Search.{Serves};
ghost use Rattle.sp_bank.specs.Separation.{AreDifferent, IsGroup, IsListed, access, access_count, constants};

use crate::clash::access_of;
use crate::separation::have_same_constants;
use smallvec::SmallVec;
use sp_affine::Form;
use std::alloc::Global;

/// The number of banks below which no scheme separates all groups, since accesses with different
/// constants need a bank each: the most different constants that a group has, or 33 where one has
/// more than 32.
pub fn least_banks(alloc: Global, rank: u8, groups: &[Vec<Form>]) -> u32
    requires rank { 1 ≤ rank }
    requires groups { All (λ g. IsGroup rank g.items) groups.now }
    ensures some { 1 ≤ result }
    ensures few { result ≤ 33 }
    ensures needed { (t : Banking) → Serves rank (map (λ g. g.items) groups.now) t → result ≤ t.banks }
    ensures most { All (λ g. (us : List ℕ) → AreDifferent rank g us → result < 33 → length us ≤ result) (map (λ g. g.items) groups.now) }
{
    let mut least = 1;
    for group in groups {
        let count = different_count(alloc, usize::from(rank), group.as_slice());
        if least < count {
            least = count;
        }
    }
    least
}

/// How many different constants a group has, or 33 where it has more than 32.
pub fn different_count(alloc: Global, rank: usize, group: &[Form]) -> u32
    requires rank { 1 ≤ rank }
    requires group { IsGroup rank group.now }
    ensures few { result ≤ 33 }
    ensures least { (us : List ℕ) × AreDifferent rank group.now us × (length us ≡ result) }
    ensures most { (us : List ℕ) → AreDifferent rank group.now us → result < 33 → length us ≤ result }
{
    different(alloc, rank, group).len() as u32
}

/// The first access with each of the different constants of a group, up to 33 accesses.
pub fn different(alloc: Global, rank: usize, group: &[Form]) -> SmallVec<usize, 33>
    requires rank { 1 ≤ rank }
    requires group { IsGroup rank group.now }
    ensures few { length result.items ≤ 33 }
    ensures different { AreDifferent rank group.now result.items }
    ensures all { length result.items < 33 → (u : ℕ) → u < access_count rank group.now → IsListed rank group.now result.items u }
{
    let mut firsts = SmallVec::new(alloc);
    for u in 0..group.len() / rank {
        if firsts.len() == 33 {
            return firsts;
        }
        if !is_listed(rank, group, firsts.as_slice(), u) {
            firsts.push_reserved(u);
        }
    }
    firsts
}

// Whether one of these accesses has the constants of access `u`.
fn is_listed(rank: usize, group: &[Form], firsts: &[usize], u: usize) -> bool
    requires rank { 1 ≤ rank }
    requires group { IsGroup rank group.now }
    requires firsts { AreDifferent rank group.now firsts.now }
    requires inside { u < access_count rank group.now }
    ensures listed { IsTrue result → IsListed rank group.now firsts.now u }
    ensures new { ¬ (IsTrue result) → (i : ℕ) → i < length firsts.now →
        constants (access rank group.now (slice_index firsts.now i)) ≢ constants (access rank group.now u) }
{
    let wanted = access_of(rank, group, u);
    for first in firsts {
        if have_same_constants(access_of(rank, group, *first), wanted) {
            return true;
        }
    }
    false
}
