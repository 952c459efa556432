ghost use Rattle.std.specs.Prelude.{◌≡◌, ◌↔◌, ◌<◌, length, IsTrue, IsNone, IfSome, IfOk, MatchResult};
ghost use Rattle.std.specs.List.{All};
ghost use Rattle.sp_bank.specs.Banking.{InSpace, IsAllowedSize};

use crate::divisor::gcd;
use smallvec::SmallVec;
use std::alloc::AllocError;
use std::marker::Model;

/// A way to divide a memory into banks: element x stands in bank `alpha·x / block mod banks`.
#[derive(Debug, Drop)]
pub struct Scheme {
    /// From 1 to 32.
    pub banks: u32,
    /// How many places in a row stand in one bank: 1, 2 or 4.
    pub block: u32,
    /// A weight below `banks` for each dimension of the memory.
    pub alpha: SmallVec<u32, 3>,
    /// A dimension whose weight has no divisor in common with `banks * block`.
    pub hinge: u8,
}

impl Model for Scheme {
    ghost use Rattle.sp_bank.specs.Banking.{Banking, InSpace};

    ghost Value = { Banking };

    ghost view = { λ s. record { banks = s.banks; block = s.block; alpha = s.alpha.items; hinge = s.hinge } };

    ghost invariant = { λ s. InSpace (record { banks = s.banks; block = s.block; alpha = s.alpha.items; hinge = s.hinge }) };
}

impl Clone for Scheme {
    ghost is_clone = { λ s t. t ≡ s };

    fn clone(&self) -> Result<Scheme, AllocError>
        ensures same { IfOk result (λ s. s ≡ self.now) }
        ensures cases { MatchResult result (λ s. s ≡ self.now) (λ _. ¬ ⊥) }
    {
        let alpha = SmallVec::from_slice(*self.alpha.allocator(), self.alpha.as_slice())?;
        Ok(Scheme {
            banks: self.banks,
            block: self.block,
            alpha,
            hinge: self.hinge,
        })
    }
}

impl Scheme {
    /// The scheme of these numbers, if they make one.
    pub fn new(banks: u32, block: u32, alpha: SmallVec<u32, 3>, hinge: u8) -> Option<Scheme>
        ensures scheme { IfSome result (λ s. s ≡ record { banks = banks; block = block; alpha = alpha.items; hinge = hinge }) }
        ensures valid { IfSome result InSpace }
        ensures none { IsNone result ↔
            ¬ InSpace (record { banks = banks; block = block; alpha = alpha.items; hinge = hinge }) }
    {
        if is_in_space(banks, block, alpha.as_slice(), hinge) {
            Some(Scheme {
                banks,
                block,
                alpha,
                hinge,
            })
        } else {
            None
        }
    }
}

fn is_in_space(banks: u32, block: u32, alpha: &[u32], hinge: u8) -> bool
    ensures { IsTrue result ↔
        InSpace (record { banks = banks; block = block; alpha = alpha.now; hinge = hinge }) }
{
    let hinge = usize::from(hinge);
    if !has_allowed_sizes(banks, block, alpha.len(), hinge) {
        return false;
    }
    all_below(alpha, banks) && gcd(alpha[hinge], banks * block) == 1
}

fn has_allowed_sizes(banks: u32, block: u32, rank: usize, hinge: usize) -> bool
    ensures { IsTrue result ↔ IsAllowedSize banks block rank hinge }
{
    (1..=32).contains(&banks)
        && matches!(block, 1 | 2 | 4)
        && (1..=3).contains(&rank)
        && hinge < rank
}

fn all_below(alpha: &[u32], banks: u32) -> bool
    ensures { IsTrue result ↔ All (λ a. a < banks) alpha.now }
{
    alpha.iter().all(|a| *a < banks)
}
