//! Lists of forms as groups of accesses.
ghost use Rattle.std.specs.Prelude.{◌↔◌, ◌<◌, IsTrue};
ghost use Rattle.std.specs.List.{All};
ghost use Rattle.sp_bank.specs.Separation.{IsGroup};

use sp_affine::Form;

/// Whether a list has the same number of forms for each of its accesses, and fewer than 2^32
/// accesses.
pub fn is_group(rank: u8, group: &[Form]) -> bool
    requires { 0 < rank }
    ensures { IsTrue result ↔ IsGroup rank group.now }
{
    let rank = usize::from(rank);
    let count = group.len() / rank;
    count * rank == group.len() && count < 1 << 32
}

/// Whether each of the lists is a group.
pub fn are_groups(rank: u8, groups: &[Vec<Form>]) -> bool
    requires { 0 < rank }
    ensures { IsTrue result ↔ All (λ g. IsGroup rank g.items) groups.now }
{
    for group in groups {
        if !is_group(rank, group.as_slice()) {
            return false;
        }
    }
    true
}
