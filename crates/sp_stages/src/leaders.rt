//! Leaders of runs: at first each is its own.

ghost use Rattle.std.specs.Prelude.{◌≡◌, ℕ, ◌==◌, ◌<◌, if◌then◌else◌, length, slice_index, IfOk};
ghost use Rattle.sp_core.specs.Elements.{numbers_below};
ghost use Rattle.sp_stages.specs.Chains.{AreListed, instead, merged};

use crate::NoMemory;
use std::alloc::Global;

pub(crate) fn own_leaders(alloc: Global, size: usize) -> Result<Vec<usize>, NoMemory>
    ensures { IfOk result (λ leaders. leaders.items ≡ numbers_below size) }
{
    let mut leaders = Vec::new(alloc);
    for r in 0..size {
        leaders.push(r)?;
    }
    Ok(leaders)
}

fn instead(leader: usize, lesser: usize, greater: usize) -> usize
    ensures { result ≡ (if leader == greater then lesser else leader) }
{
    if leader == greater { lesser } else { leader }
}

/// Whose leader is the greater one gets the lesser one.
fn replace(leaders: &mut Vec<usize>, lesser: usize, greater: usize)
    ensures each { length leaders.new.items ≡ length leaders.old.items }
    ensures replaced { (r : ℕ) → r < length leaders.old.items → slice_index leaders.new.items r ≡ instead (λ k. slice_index leaders.old.items k) lesser greater r }
{
    for leader in leaders.iter_mut() {
        *leader = instead(*leader, lesser, greater);
    }
}

/// Whose leader is the greater one of those of two runs gets the lesser one.
pub(crate) fn merge(leaders: &mut Vec<usize>, p: usize, q: usize)
    requires p { p < length leaders.old.items }
    requires q { q < length leaders.old.items }
    ensures each { length leaders.new.items ≡ length leaders.old.items }
    ensures merged { (leader : ℕ → ℕ) → AreListed leader leaders.old.items → AreListed (merged leader p q) leaders.new.items }
{
    let first = leaders[p];
    let second = leaders[q];
    if first <= second {
        replace(leaders, first, second);
    } else {
        replace(leaders, second, first);
    }
}
