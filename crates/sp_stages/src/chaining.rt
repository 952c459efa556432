//! The chains of an outer body, whose stages have slots.

ghost use Rattle.std.specs.Prelude.{◌≡◌, ℕ, ◌<◌, ◌≤◌, ◌^◌, if◌then◌else◌, ◌+◌, [], map, length, slice_index, IfOk};
ghost use Rattle.sp_core.specs.CoreParts.{plain_core};
ghost use Rattle.sp_core.specs.Plain.{plain_counter};
ghost use Rattle.sp_stages.specs.Chains.{AreListed, merged, after_links, is_link, leaders, leads_in, chain_number, chains_of};
ghost use Rattle.sp_plan.specs.Runs.{plain_run};

use crate::NoMemory;
use crate::leaders::{merge, own_leaders};
use crate::runs::run_at;
use sp_core::{Core, CoreCounter, Meet};
use sp_plan::{Run, are_joined, is_parallel_block, number_at};
use sp_words::Style;
use std::alloc::Global;

/// Whether a run and a later one are of one slot and are joined.
fn is_link(
    core: &Core,
    parallel: bool,
    runs: &[Run],
    slots: &[u32],
    meets: &[Meet],
    p: usize,
    q: usize,
) -> bool
    requires p { p < length runs.now }
    requires q { q < length runs.now }
    ensures { result ≡ is_link (plain_core core.now) meets.now parallel (map plain_run runs.now) slots.now p q }
{
    (p < q && number_at(slots, p) == number_at(slots, q))
        && are_joined(core, parallel, run_at(runs, p), run_at(runs, q), meets)
}

/// The leaders after the link of two runs, if they have one.
fn link(
    core: &Core,
    parallel: bool,
    runs: &[Run],
    slots: &[u32],
    meets: &[Meet],
    p: usize,
    q: usize,
    leaders: &mut Vec<usize>,
)
    requires p { p < length runs.now }
    requires q { q < length runs.now }
    requires each { length leaders.old.items ≡ length runs.now }
    ensures each { length leaders.new.items ≡ length leaders.old.items }
    ensures linked { (leader : ℕ → ℕ) → AreListed leader leaders.old.items → AreListed (if is_link (plain_core core.now) meets.now parallel (map plain_run runs.now) slots.now p q then merged leader p q else leader) leaders.new.items }
{
    if is_link(core, parallel, runs, slots, meets, p, q) {
        merge(leaders, p, q);
    }
}

/// The leaders after the links of the run at a place.
fn link_run(
    core: &Core,
    parallel: bool,
    runs: &[Run],
    slots: &[u32],
    meets: &[Meet],
    p: usize,
    leaders: &mut Vec<usize>,
)
    requires p { p < length runs.now }
    requires each { length leaders.old.items ≡ length runs.now }
    ensures each { length leaders.new.items ≡ length leaders.old.items }
    ensures linked { (leader : ℕ → ℕ) → AreListed leader leaders.old.items → AreListed (after_links (is_link (plain_core core.now) meets.now parallel (map plain_run runs.now) slots.now) leader p (length runs.now)) leaders.new.items }
{
    for q in 0..runs.len() {
        link(core, parallel, runs, slots, meets, p, q, leaders);
    }
}

/// The leader of each run.
fn leaders(
    alloc: Global,
    core: &Core,
    parallel: bool,
    runs: &[Run],
    slots: &[u32],
    meets: &[Meet],
) -> Result<Vec<usize>, NoMemory>
    ensures { IfOk result (λ all. (length all.items ≡ length runs.now) × AreListed (leaders (plain_core core.now) meets.now parallel (map plain_run runs.now) slots.now) all.items) }
{
    let mut leaders = own_leaders(alloc, runs.len())?;
    for p in 0..runs.len() {
        link_run(core, parallel, runs, slots, meets, p, &mut leaders);
    }
    Ok(leaders)
}

fn leads_in(slots: &[u32], leaders: &[usize], slot: u32, r: usize) -> bool
    requires { r < length leaders.now }
    ensures { result ≡ leads_in slots.now (λ k. slice_index leaders.now k) slot r }
{
    leaders[r] == r && number_at(slots, r) == slot
}

fn counted(count: u32, leads: bool) -> u32
    requires { count < 2 ^ 31 }
    ensures { result ≡ count + (if leads then 1 else 0) }
{
    if leads { count + 1 } else { count }
}

/// How many leaders of a run's slot stand before its own.
fn chain_number(slots: &[u32], leaders: &[usize], p: usize) -> u32
    requires p { p < length leaders.now }
    requires least { slice_index leaders.now p ≤ p }
    requires few { length leaders.now ≤ 2 ^ 30 }
    ensures { (leader : ℕ → ℕ) → AreListed leader leaders.now → result ≡ chain_number slots.now leader p }
{
    let slot = number_at(slots, p);
    let mut count = 0;
    for r in 0..leaders[p] {
        count = counted(count, leads_in(slots, leaders, slot, r));
    }
    count
}

/// The chain of each run.
pub(crate) fn chains_of(
    alloc: Global,
    core: &Core,
    counters: &[CoreCounter],
    style: Style,
    runs: &[Run],
    meets: &[Meet],
    slots: &[u32],
) -> Result<Vec<u32>, NoMemory>
    requires { length runs.now ≤ 2 ^ 30 }
    ensures { IfOk result (λ chains. chains.items ≡ chains_of (plain_core core.now) meets.now (map plain_counter counters.now) style (map plain_run runs.now) slots.now) }
{
    let parallel = is_parallel_block(counters, style);
    let leaders = leaders(alloc, core, parallel, runs, slots, meets)?;
    let mut chains = Vec::new(alloc);
    for p in 0..runs.len() {
        chains.push(chain_number(slots, &leaders, p))?;
    }
    Ok(chains)
}
