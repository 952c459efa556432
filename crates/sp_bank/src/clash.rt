//! The first two accesses of a group that a scheme does not keep apart.
ghost use Rattle.std.specs.Prelude.{◌≡◌, ◌↔◌, ℕ, ◌<◌, ◌≤◌, length, IsTrue, IfSome, IfNone};
ghost use Rattle.sp_bank.specs.Separation.{PairApart, Separates, IsGroup, IsFirstClash, access, access_count};

use crate::scheme::Scheme;
use crate::separation::apart;
use sp_affine::Form;

/// Whether a scheme keeps the accesses of a group apart from one another.
///
/// A group lists the forms of its accesses one access after the other, one form for each dimension;
/// in each dimension all accesses have the same linear part.
pub fn separates(s: &Scheme, group: &[Form]) -> bool
    requires { IsGroup (length s.now.alpha) group.now }
    ensures { IsTrue result ↔ Separates s.now group.now }
{
    first_clash(s, group).is_none()
}

pub fn first_clash(s: &Scheme, group: &[Form]) -> Option<(usize, usize)>
    requires { IsGroup (length s.now.alpha) group.now }
    ensures found { IfSome result (λ p. IsFirstClash s.now group.now p.0 p.1) }
    ensures none { IfNone result (Separates s.now group.now) }
{
    for u in 0..group.len() / s.alpha.len() {
        if let Some(v) = first_clash_with(s, group, u) {
            return Some((u, v));
        }
    }
    None
}

// The first later access that is not apart from access `u`.
fn first_clash_with(s: &Scheme, group: &[Form], u: usize) -> Option<usize>
    requires group { IsGroup (length s.now.alpha) group.now }
    requires inside { u < access_count (length s.now.alpha) group.now }
    ensures later { IfSome result (λ v. (u < v) × (v < access_count (length s.now.alpha) group.now)) }
    ensures clash { IfSome result (λ v. ¬ PairApart s.now group.now u v) }
    ensures first { IfSome result (λ v. (w : ℕ) → u < w → w < v → PairApart s.now group.now u w) }
    ensures none { IfNone result ((w : ℕ) → u < w → w < access_count (length s.now.alpha) group.now →
        PairApart s.now group.now u w) }
{
    let rank = s.alpha.len();
    let a = access_of(rank, group, u);
    for v in u + 1..group.len() / rank {
        if !apart(s, a, access_of(rank, group, v)) {
            return Some(v);
        }
    }
    None
}

// The forms of access `u`.
pub fn access_of(rank: usize, group: &[Form], u: usize) -> &[Form]
    requires some { 0 < rank }
    requires group { IsGroup rank group.now }
    requires inside { u < access_count rank group.now }
    ensures forms { result.now ≡ access rank group.now u }
    ensures rank { length result.now ≡ rank }
{
    &group[u * rank..(u + 1) * rank]
}
