//! The stages of an outer body as they stand in its list.

ghost use Rattle.std.specs.Prelude.{◌≡◌, ℕ, ◌-◌, ◌*◌, ◌<◌, ◌≤◌, ◌+◌, ◌^◌, ◌==◌, ◌&&◌, not, [], map, slice_index, if◌then◌else◌};
ghost use Rattle.sp_core.specs.CoreParts.{plain_core};
ghost use Rattle.sp_core.specs.Meeting.{least_of};
ghost use Rattle.sp_core.specs.Numbering.{number_count};
ghost use Rattle.sp_core.specs.Plain.{plain_counter, plain_node, plain_stage_list};
ghost use Rattle.sp_plan.specs.Runs.{plain_run};
ghost use Rattle.sp_plan.specs.Slots.{runs_of, is_of_all, is_within, share_lane, is_once, has_one_slot, is_parallel_block, lane_size};

use crate::size::count_numbers;
use sp_core::{Core, CoreCounter, Meet, Node, Stage};
use sp_words::Style;

/// A stage in these lanes, with the operations from one number up to another.
#[derive(Clone, Copy, Debug)]
pub struct Run {
    pub from: u32,
    pub until: u32,
    pub first: u32,
    pub last: u32,
}

/// A stage in these lanes, whose first operation has a number.
pub fn run_from(from: u32, first: u32, last: u32, node: &Node) -> Run
    requires { from + number_count (plain_node node.now) ≤ 2 ^ 30 }
    ensures { plain_run result ≡ record { from = from; until = from + number_count (plain_node node.now); first = first; last = last } }
{
    Run {
        from,
        until: from + count_numbers(node),
        first,
        last,
    }
}

/// Whether it is of several lanes, as the combination of a loop with lanes is.
pub fn is_of_all(run: Run) -> bool
    ensures { result ≡ is_of_all (plain_run run) }
{
    run.first != run.last
}

pub fn is_within(run: Run, number: u32) -> bool
    ensures { result ≡ is_within (plain_run run) number }
{
    run.from <= number && number < run.until
}

/// Whether two are of one lane.
pub fn share_lane(a: Run, b: Run) -> bool
    ensures { result ≡ share_lane (plain_run a) (plain_run b) }
{
    a.first <= b.last && b.first <= a.last
}

/// The number of the stage at a place, in its lane; that of several lanes is the last one.
pub fn stage_in_lane(run: Run, lane: usize, p: usize) -> usize
    ensures { result ≡ (if is_of_all (plain_run run) then lane else p - run.first * lane) }
{
    if is_of_all(run) {
        lane
    } else {
        let before = u64::from(run.first).saturating_mul(lane as u64);
        (p as u64).saturating_sub(before) as usize
    }
}

fn is_in_lane_0(first: u32, last: u32) -> bool
    ensures { result ≡ (not (not (first == last)) && (first == 0)) }
{
    first == last && first == 0
}

fn counted(count: usize, counts: bool) -> usize
    requires { count < 2 ^ 63 }
    ensures { result ≡ count + (if counts then 1 else 0) }
{
    if counts { count + 1 } else { count }
}

/// How many stages a lane has.
pub fn lane_size(stages: &[Stage]) -> usize
    ensures { (number : ℕ) → result ≡ lane_size (runs_of number (plain_stage_list stages.now)) }
{
    let mut count = 0;
    for stage in stages {
        count = counted(count, is_in_lane_0(stage.first, stage.last));
    }
    count
}

pub fn is_once(counters: &[CoreCounter]) -> bool
    ensures { result ≡ is_once (map plain_counter counters.now) }
{
    counters.is_empty()
}

/// Whether all stages have one slot, as those of a `Sequential` loop and of a `Parallel` block.
pub fn has_one_slot(counters: &[CoreCounter], style: Style) -> bool
    ensures { result ≡ has_one_slot (map plain_counter counters.now) style }
{
    match style {
        Style::Parallel => is_once(counters),
        Style::Sequential => !is_once(counters),
        _ => false,
    }
}

pub fn is_parallel_block(counters: &[CoreCounter], style: Style) -> bool
    ensures { result ≡ is_parallel_block (map plain_counter counters.now) style }
{
    match style {
        Style::Parallel => is_once(counters),
        _ => false,
    }
}

/// The least distance of a meet; 0 is 1 for a second access that doesn't stand after the first.
pub fn least_of(core: &Core, meet: Meet) -> u64
    ensures { result ≡ least_of (plain_core core.now) [] meet }
{
    let _core = core;
    if meet.least == 0 && meet.second <= meet.first {
        1
    } else {
        meet.least
    }
}

/// The number at a place, as a slot or a chain; 0 where there is none.
pub fn number_at(numbers: &[u32], p: usize) -> u32
    ensures { result ≡ slice_index numbers.now p }
{
    match numbers.get(p) {
        Some(number) => *number,
        None => 0,
    }
}
