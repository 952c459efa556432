//! Which accesses a scheme keeps in different banks.
ghost use Rattle.std.specs.Prelude.{◌≡◌, ◌↔◌, ◌<◌, ◌*◌, ◌+◌, ◌≤◌, ℕ, length, pos, IsTrue, IfSome, IfNone};
ghost use Rattle.sp_bank.specs.Banking.{InSpace};
ghost use Rattle.sp_bank.specs.Separation.{AreApart, AreFar, PairApart, Separates, IsGroup, access, access_count, constants, residue_of};

use crate::residue::residue;
use crate::scheme::Scheme;
use sp_affine::Form;

/// Whether a scheme puts two accesses in different banks wherever their elements differ: each
/// access has a form for each dimension, and the two have equal linear parts.
pub fn apart(s: &Scheme, a: &[Form], b: &[Form]) -> bool
    requires first { length a.now ≡ length s.now.alpha }
    requires second { length b.now ≡ length s.now.alpha }
    ensures { IsTrue result ↔ AreApart s.now (constants a.now) (constants b.now) }
{
    have_same_constants(a, b) || are_far(s, residue(s, a), residue(s, b))
}

// Whether two accesses have equal constants, dimension by dimension.
pub fn have_same_constants(a: &[Form], b: &[Form]) -> bool
    requires { length a.now ≡ length b.now }
    ensures { IsTrue result ↔ (constants a.now ≡ constants b.now) }
{
    for (i, form) in a.iter().enumerate() {
        let other = &b[i];
        if form.constant != other.constant {
            return false;
        }
    }
    true
}

fn are_far(s: &Scheme, x: u32, y: u32) -> bool
    requires first { x < s.now.banks * s.now.block }
    requires second { y < s.now.banks * s.now.block }
    ensures far { IsTrue result ↔ AreFar s.now x y }
    ensures space { InSpace s.now }
{
    let distance = x.abs_diff(y);
    s.block <= distance && distance <= s.banks * s.block - s.block
}
