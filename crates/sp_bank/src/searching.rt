//! The search for the first scheme that keeps all groups of a memory apart.
ghost use Rattle.std.specs.Prelude.{◌≡◌, ◌↔◌, ◌≤◌, ◌<◌, ◌+◌, ◌-◌, ◌*◌, ◌^◌, ◌++◌, ℕ, length, map, slice_index, IsTrue, IfSome, IfNone};
ghost use Rattle.std.specs.List.{All};
ghost use Rattle.std.specs.Int.{IsGcd};
ghost use Rattle.smallvec.specs.SmallVec.{HasRoomFor};
ghost use Rattle.sp_bank.specs.Banking.{Banking, InSpace, IsAllowedSize};
ghost use Rattle.sp_bank.specs.Separation.{IsGroup};
ghost use Rattle.sp_bank.specs.Search.{HasNoneAt, IsFirst, Serves, Precedes, digits};

use crate::different::least_banks;
use crate::divisor::gcd;
use crate::row::separating_weights;
use crate::scheme::Scheme;
use smallvec::SmallVec;
use sp_affine::Form;
use std::alloc::Global;

const MOST_BANKS: u32 = 32;

/// The first scheme, for a memory of so many dimensions, that separates each of these groups: that
/// with the fewest banks, then the shortest blocks, then the lexicographically least weights, then
/// the least hinge.
///
/// The weights have their place in the scheme itself, so the allocator is asked for nothing.
pub fn search(alloc: Global, rank: u8, groups: &[Vec<Form>]) -> Option<Scheme>
    requires some { 1 ≤ rank }
    requires few { rank ≤ 3 }
    requires groups { All (λ g. IsGroup rank g.items) groups.now }
    ensures first { IfSome result (IsFirst rank (map (λ g. g.items) groups.now)) }
    ensures none { IfNone result ((t : Banking) → ¬ (Serves rank (map (λ g. g.items) groups.now) t)) }
{
    for banks in least_banks(alloc, rank, groups)..MOST_BANKS + 1 {
        if let Some(scheme) = first_of_banks(alloc, rank, banks, groups) {
            return Some(scheme);
        }
    }
    None
}

// The first scheme of this many banks.
fn first_of_banks(alloc: Global, rank: u8, banks: u32, groups: &[Vec<Form>]) -> Option<Scheme>
    requires some { 1 ≤ rank }
    requires few { rank ≤ 3 }
    requires some_bank { 1 ≤ banks }
    requires few_banks { banks ≤ 32 }
    requires groups { All (λ g. IsGroup rank g.items) groups.now }
    ensures serves { IfSome result (Serves rank (map (λ g. g.items) groups.now)) }
    ensures size { IfSome result (λ s. s.banks ≡ banks) }
    ensures first { IfSome result (λ s. (t : Banking) → Serves rank (map (λ g. g.items) groups.now) t →
        t.banks ≡ banks → ¬ (Precedes t s)) }
    ensures none { IfNone result ((t : Banking) → Serves rank (map (λ g. g.items) groups.now) t →
        t.banks ≡ banks → ⊥) }
{
    if let Some(scheme) = first_of_size(alloc, rank, banks, 1, groups) {
        return Some(scheme);
    }
    if let Some(scheme) = first_of_size(alloc, rank, banks, 2, groups) {
        return Some(scheme);
    }
    first_of_size(alloc, rank, banks, 4, groups)
}

// The first scheme of this many banks and this block.
fn first_of_size(
    alloc: Global,
    rank: u8,
    banks: u32,
    block: u32,
    groups: &[Vec<Form>],
) -> Option<Scheme>
    requires size { IsAllowedSize banks block rank 0 }
    requires groups { All (λ g. IsGroup rank g.items) groups.now }
    ensures serves { IfSome result (Serves rank (map (λ g. g.items) groups.now)) }
    ensures size { IfSome result (λ s. (s.banks ≡ banks) × (s.block ≡ block)) }
    ensures first { IfSome result (λ s. (t : Banking) → Serves rank (map (λ g. g.items) groups.now) t →
        t.banks ≡ banks → t.block ≡ block → ¬ (Precedes t s)) }
    ensures none { IfNone result ((t : Banking) → Serves rank (map (λ g. g.items) groups.now) t →
        t.banks ≡ banks → t.block ≡ block → ⊥) }
{
    for row in 0..banks.pow(u32::from(rank - 1)) {
        if let Some(scheme) = first_of_row(alloc, rank, banks, block, row, groups) {
            return Some(scheme);
        }
    }
    None
}

// The first scheme whose weights before the last have this number.
fn first_of_row(
    alloc: Global,
    rank: u8,
    banks: u32,
    block: u32,
    row: u32,
    groups: &[Vec<Form>],
) -> Option<Scheme>
    requires size { IsAllowedSize banks block rank 0 }
    requires inside { row < banks ^ (rank - 1) }
    requires groups { All (λ g. IsGroup rank g.items) groups.now }
    ensures serves { IfSome result (Serves rank (map (λ g. g.items) groups.now)) }
    ensures size { IfSome result (λ s. (s.banks ≡ banks) × (s.block ≡ block)) }
    ensures first { IfSome result (λ s. (last : ℕ) × (last < banks) × (s.alpha ≡ digits rank banks (row * banks + last)) ×
        ((w : ℕ) → w < last → HasNoneAt rank banks block (row * banks + w) (map (λ g. g.items) groups.now))) }
    ensures hinge { IfSome result (λ s. (r : ℕ) → r < s.hinge →
        ¬ (IsGcd (slice_index s.alpha r) (banks * block) 1)) }
    ensures none { IfNone result ((w : ℕ) → w < banks → HasNoneAt rank banks block (row * banks + w) (map (λ g. g.items) groups.now)) }
{
    let before = weights(alloc, rank - 1, banks, row);
    let separating = separating_weights(alloc, before.as_slice(), banks, block, groups);
    for last in 0..banks {
        if separating[last as usize] {
            if let Some(scheme) = scheme_at(alloc, rank, banks, block, row * banks + last) {
                return Some(scheme);
            }
        }
    }
    None
}

// The scheme of the weights with this number, if one of them makes a hinge.
fn scheme_at(alloc: Global, rank: u8, banks: u32, block: u32, code: u32) -> Option<Scheme>
    requires size { IsAllowedSize banks block rank 0 }
    requires inside { code < banks ^ rank }
    ensures space { IfSome result InSpace }
    ensures size { IfSome result (λ s. (s.banks ≡ banks) × (s.block ≡ block)) }
    ensures weights { IfSome result (λ s. s.alpha ≡ digits rank banks code) }
    ensures hinge { IfSome result (λ s. (r : ℕ) → r < s.hinge →
        ¬ (IsGcd (slice_index s.alpha r) (banks * block) 1)) }
    ensures none { IfNone result ((t : Banking) → InSpace t →
        t.banks ≡ banks → t.block ≡ block → t.alpha ≡ digits rank banks code → ⊥) }
{
    let alpha = weights(alloc, rank, banks, code);
    let Some(hinge) = first_hinge(alpha.as_slice(), banks * block) else {
        return None;
    };
    Some(Scheme {
        banks,
        block,
        alpha,
        hinge,
    })
}

// The digits of a number to the base `banks`, the highest first.
fn weights(alloc: Global, rank: u8, banks: u32, code: u32) -> SmallVec<u32, 3>
    requires few { rank ≤ 3 }
    requires some { 1 ≤ banks }
    requires small { banks ≤ 32 }
    requires inside { code < banks ^ rank }
    ensures { result.items ≡ digits rank banks code }
{
    let mut made = SmallVec::new(alloc);
    push_digits(&mut made, rank, banks, code);
    made
}

fn push_digits(made: &mut SmallVec<u32, 3>, rank: u8, banks: u32, code: u32)
    requires room { HasRoomFor made.old rank }
    requires few { rank ≤ 3 }
    requires some { 1 ≤ banks }
    requires small { banks ≤ 32 }
    requires inside { code < banks ^ rank }
    ensures { made.new.items ≡ made.old.items ++ digits rank banks code }
{
    if rank > 0 {
        let scale = banks.pow(u32::from(rank - 1));
        made.push_reserved(code / scale);
        push_digits(made, rank - 1, banks, code % scale);
    }
}

// The first dimension whose weight has no divisor in common with the period.
fn first_hinge(alpha: &[u32], period: u32) -> Option<u8>
    requires { length alpha.now ≤ 3 }
    ensures inside { IfSome result (λ q. q < length alpha.now) }
    ensures hinge { IfSome result (λ q. IsGcd (slice_index alpha.now q) period 1) }
    ensures first { IfSome result (λ q. (r : ℕ) → r < q → ¬ (IsGcd (slice_index alpha.now r) period 1)) }
    ensures none { IfNone result ((r : ℕ) → r < length alpha.now → ¬ (IsGcd (slice_index alpha.now r) period 1)) }
{
    for (q, weight) in alpha.iter().enumerate() {
        if gcd(*weight, period) == 1 {
            return Some(q as u8);
        }
    }
    None
}
