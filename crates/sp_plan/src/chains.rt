//! Whether the chains of an outer body are right.

ghost use Rattle.std.specs.Prelude.{◌≡◌, ℕ, List, ◌≤◌, ◌<◌, ◌+◌, ◌^◌, ◌&&◌, ◌||◌, not, [], map, length};
ghost use Rattle.std.specs.List.{list_all, list_any};
ghost use Rattle.sp_core.specs.CoreParts.{plain_core};
ghost use Rattle.sp_core.specs.Elements.{numbers_below};
ghost use Rattle.sp_core.specs.Numbering.{number_count_in};
ghost use Rattle.sp_core.specs.Plain.{plain_counter, plain_stage_list};
ghost use Rattle.sp_plan.specs.Runs.{plain_run};
ghost use Rattle.sp_plan.specs.Slots.{StageRun, runs_of, run_at, share_lane, may_meet, is_parallel_block, is_chain_right, are_chains_right_of, are_chains_right};

use crate::runs::{Run, is_parallel_block, is_within, least_of, number_at, run_from, share_lane};
use sp_core::{Core, CoreCounter, Meet, Stage};
use sp_words::Style;

/// Whether the accesses of a meet are of two runs and may meet in one group.
pub fn may_meet(core: &Core, a: Run, b: Run, meet: Meet) -> bool
    ensures { result ≡ may_meet (plain_core core.now) (plain_run a) (plain_run b) meet }
{
    (is_within(a, meet.first) && is_within(b, meet.second)) && least_of(core, meet) == 0
}

/// Whether those of one of the meets are.
fn meet_in_group(core: &Core, a: Run, b: Run, meets: &[Meet]) -> bool
    ensures { result ≡ list_any (may_meet (plain_core core.now) (plain_run a) (plain_run b)) meets.now }
{
    for meet in meets {
        if may_meet(core, a, b, *meet) {
            return true;
        }
    }
    false
}

/// Whether two runs of one slot must be in one chain.
pub fn are_joined(core: &Core, parallel: bool, a: Run, b: Run, meets: &[Meet]) -> bool
    ensures { result ≡ ((not parallel && share_lane (plain_run a) (plain_run b)) || list_any (may_meet (plain_core core.now) (plain_run a) (plain_run b)) meets.now) }
{
    (!parallel && share_lane(a, b)) || meet_in_group(core, a, b, meets)
}

/// Whether a run and a later one of its slot that must be in one chain are.
fn is_chain_right(
    core: &Core,
    parallel: bool,
    meets: &[Meet],
    slots: &[u32],
    chains: &[u32],
    p: usize,
    a: Run,
    q: usize,
    b: Run,
) -> bool
    ensures { (runs : List StageRun) → run_at runs p ≡ plain_run a → run_at runs q ≡ plain_run b → result ≡ is_chain_right runs slots.now chains.now (plain_core core.now) parallel meets.now p q }
{
    ((q <= p || number_at(slots, p) != number_at(slots, q))
        || number_at(chains, p) == number_at(chains, q))
        || !are_joined(core, parallel, a, b, meets)
}

/// Whether the chain of the run at a place is right beside those of all others.
fn are_chains_right_of(
    core: &Core,
    parallel: bool,
    meets: &[Meet],
    slots: &[u32],
    chains: &[u32],
    number: u32,
    stages: &[Stage],
    p: usize,
    a: Run,
) -> bool
    requires small { number + number_count_in (plain_stage_list stages.now) ≤ 2 ^ 30 }
    requires run { run_at (runs_of number (plain_stage_list stages.now)) p ≡ plain_run a }
    ensures { result ≡ are_chains_right_of (runs_of number (plain_stage_list stages.now)) slots.now chains.now (plain_core core.now) parallel meets.now p }
{
    let mut from = number;
    for (q, stage) in stages.iter().enumerate() {
        let b = run_from(from, stage.first, stage.last, &stage.node);
        if !is_chain_right(core, parallel, meets, slots, chains, p, a, q, b) {
            return false;
        }
        from = b.until;
    }
    true
}

/// Whether the chains of a body are right, by the number of its first stage's first operation and the slots of its
/// stages: runs of one slot that are of one lane, or may meet in one group, are in one chain.
pub fn are_chains_right(
    core: &Core,
    counters: &[CoreCounter],
    style: Style,
    meets: &[Meet],
    number: u32,
    stages: &[Stage],
    slots: &[u32],
    chains: &[u32],
) -> bool
    requires { number + number_count_in (plain_stage_list stages.now) ≤ 2 ^ 30 }
    ensures { result ≡ are_chains_right (runs_of number (plain_stage_list stages.now)) slots.now chains.now (plain_core core.now) (map plain_counter counters.now) style meets.now }
{
    let parallel = is_parallel_block(counters, style);
    let mut from = number;
    for (p, stage) in stages.iter().enumerate() {
        let a = run_from(from, stage.first, stage.last, &stage.node);
        if !are_chains_right_of(core, parallel, meets, slots, chains, number, stages, p, a) {
            return false;
        }
        from = a.until;
    }
    true
}
