//! Whether the slots of an outer body hold together what meets.

ghost use Rattle.std.specs.Prelude.{◌≡◌, ℕ, List, ◌≤◌, ◌+◌, ◌^◌, [], map};
ghost use Rattle.std.specs.List.{list_any};
ghost use Rattle.sp_core.specs.CoreParts.{plain_core};
ghost use Rattle.sp_core.specs.Numbering.{number_count_in};
ghost use Rattle.sp_core.specs.Plain.{plain_counter, plain_stage_list};
ghost use Rattle.sp_plan.specs.Runs.{plain_run};
ghost use Rattle.sp_plan.specs.Slots.{StageRun, runs_of, run_at, lane_size, holds_together, each_run, is_held, are_held_with, are_held};

use crate::named::share_other;
use crate::runs::{
    Run, is_once, is_within, lane_size, least_of, number_at, run_from, stage_in_lane,
};
use sp_core::{Core, CoreCounter, Meet, Stage};

/// Whether a meet holds two runs together, the second one so many stages before the first.
fn holds_together(core: &Core, owned: &[u32], apart: usize, a: Run, b: Run, meet: Meet) -> bool
    ensures { result ≡ holds_together (plain_core core.now) owned.now apart (plain_run a) (plain_run b) meet }
{
    (is_within(a, meet.first) && is_within(b, meet.second))
        && (least_of(core, meet) <= apart as u64
            && share_other(core, owned, meet.first, meet.second))
}

fn one_holds(core: &Core, owned: &[u32], apart: usize, a: Run, b: Run, meets: &[Meet]) -> bool
    ensures { result ≡ list_any (holds_together (plain_core core.now) owned.now apart (plain_run a) (plain_run b)) meets.now }
{
    for meet in meets {
        if holds_together(core, owned, apart, a, b, *meet) {
            return true;
        }
    }
    false
}

/// Whether two runs are in one slot if a meet holds them together.
fn is_held(
    core: &Core,
    owned: &[u32],
    meets: &[Meet],
    slots: &[u32],
    lane: usize,
    p: usize,
    a: Run,
    q: usize,
    b: Run,
) -> bool
    ensures { (runs : List StageRun) → run_at runs p ≡ plain_run a → run_at runs q ≡ plain_run b → lane_size runs ≡ lane → result ≡ is_held runs slots.now [] (plain_core core.now) owned.now meets.now p q }
{
    let after = stage_in_lane(a, lane, p);
    let before = stage_in_lane(b, lane, q);
    (after <= before || number_at(slots, p) == number_at(slots, q))
        || !one_holds(core, owned, after.saturating_sub(before), a, b, meets)
}

/// Whether the run at a place is with all that meets hold together with it.
fn are_held_with(
    core: &Core,
    owned: &[u32],
    meets: &[Meet],
    slots: &[u32],
    number: u32,
    stages: &[Stage],
    lane: usize,
    p: usize,
    a: Run,
) -> bool
    requires small { number + number_count_in (plain_stage_list stages.now) ≤ 2 ^ 30 }
    requires run { run_at (runs_of number (plain_stage_list stages.now)) p ≡ plain_run a }
    requires lane { lane_size (runs_of number (plain_stage_list stages.now)) ≡ lane }
    ensures { result ≡ are_held_with (runs_of number (plain_stage_list stages.now)) slots.now [] (plain_core core.now) owned.now meets.now p }
{
    let mut from = number;
    for (q, stage) in stages.iter().enumerate() {
        let b = run_from(from, stage.first, stage.last, &stage.node);
        if !is_held(core, owned, meets, slots, lane, p, a, q, b) {
            return false;
        }
        from = b.until;
    }
    true
}

fn are_all_held(
    core: &Core,
    owned: &[u32],
    meets: &[Meet],
    slots: &[u32],
    number: u32,
    stages: &[Stage],
) -> bool
    requires { number + number_count_in (plain_stage_list stages.now) ≤ 2 ^ 30 }
    ensures { result ≡ each_run (runs_of number (plain_stage_list stages.now)) (are_held_with (runs_of number (plain_stage_list stages.now)) slots.now [] (plain_core core.now) owned.now meets.now) }
{
    let lane = lane_size(stages);
    let mut from = number;
    for (p, stage) in stages.iter().enumerate() {
        let a = run_from(from, stage.first, stage.last, &stage.node);
        if !are_held_with(core, owned, meets, slots, number, stages, lane, p, a) {
            return false;
        }
        from = a.until;
    }
    true
}

/// Whether the slots of a body hold together what meets over more than what it owns, by the number of its first stage's
/// first operation: a stage of a loop, and an earlier one that it meets no more groups later than there are stages between,
/// are in one slot.
pub fn are_held(
    core: &Core,
    counters: &[CoreCounter],
    owned: &[u32],
    meets: &[Meet],
    number: u32,
    stages: &[Stage],
    slots: &[u32],
) -> bool
    requires { number + number_count_in (plain_stage_list stages.now) ≤ 2 ^ 30 }
    ensures { result ≡ are_held (runs_of number (plain_stage_list stages.now)) slots.now [] (plain_core core.now) owned.now (map plain_counter counters.now) meets.now }
{
    is_once(counters) || are_all_held(core, owned, meets, slots, number, stages)
}
