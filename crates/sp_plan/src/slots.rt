//! Whether the slots of an outer body are right.

ghost use Rattle.std.specs.Prelude.{◌≡◌, ℕ, List, ◌≤◌, ◌+◌, ◌^◌, ◌==◌, ◌&&◌, ◌||◌, not, [], map, slice_index};
ghost use Rattle.sp_core.specs.Numbering.{number_count_in};
ghost use Rattle.sp_core.specs.Plain.{plain_counter, plain_stage_list};
ghost use Rattle.sp_plan.specs.Runs.{plain_run};
ghost use Rattle.sp_plan.specs.Slots.{StageRun, runs_of, run_at, lane_size, is_slot_right, are_slots_right};

use crate::runs::{Run, has_one_slot, is_of_all, lane_size, number_at, run_from, stage_in_lane};
use sp_core::{CoreCounter, Stage};
use sp_words::Style;

fn is_next(before: u32, after: u32) -> bool
    ensures { result ≡ ((after == before) || (after == before + 1)) }
{
    after == before || u64::from(after) == u64::from(before) + 1
}

/// Whether the slot of the run at a place is right: that of its stage in lane 0, which follows that of the stage before it.
fn is_slot_right(slots: &[u32], lane: usize, p: usize, run: Run) -> bool
    ensures { (runs : List StageRun) → run_at runs p ≡ plain_run run → lane_size runs ≡ lane → result ≡ is_slot_right runs slots.now [] p }
{
    let stage = stage_in_lane(run, lane, p);
    let slot = number_at(slots, p);
    if stage == 0 {
        slot == 0
    } else if is_of_all(run) || run.first == 0 {
        is_next(number_at(slots, stage - 1), slot)
    } else {
        slot == number_at(slots, stage)
    }
}

/// Whether it is, and is 0 where all stages have one slot.
fn is_right(slots: &[u32], lane: usize, one: bool, p: usize, run: Run) -> bool
    ensures { (runs : List StageRun) → run_at runs p ≡ plain_run run → lane_size runs ≡ lane → result ≡ (is_slot_right runs slots.now [] p && (not one || (slice_index slots.now p == 0))) }
{
    is_slot_right(slots, lane, p, run) && (!one || number_at(slots, p) == 0)
}

/// Whether the slots of a body are right, by the number of its first stage's first operation: they are numbered from 0
/// without a gap in the order of the stages, each lane has those of lane 0, and all are 0 where all stages have one slot.
pub fn are_slots_right(
    counters: &[CoreCounter],
    style: Style,
    number: u32,
    stages: &[Stage],
    slots: &[u32],
) -> bool
    requires { number + number_count_in (plain_stage_list stages.now) ≤ 2 ^ 30 }
    ensures { result ≡ are_slots_right (runs_of number (plain_stage_list stages.now)) slots.now [] (map plain_counter counters.now) style }
{
    let lane = lane_size(stages);
    let one = has_one_slot(counters, style);
    let mut from = number;
    for (p, stage) in stages.iter().enumerate() {
        let run = run_from(from, stage.first, stage.last, &stage.node);
        if !is_right(slots, lane, one, p, run) {
            return false;
        }
        from = run.until;
    }
    true
}
