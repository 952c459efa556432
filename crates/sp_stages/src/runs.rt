//! The stages of an outer body as they stand in its list.

ghost use Rattle.std.specs.Prelude.{◌≡◌, ◌+◌, ◌<◌, ◌≤◌, ◌^◌, map, length, slice_index_or, IfOk};
ghost use Rattle.sp_core.specs.Numbering.{number_count_in};
ghost use Rattle.sp_core.specs.Plain.{plain_stage_list};
ghost use Rattle.sp_plan.specs.Runs.{plain_run};
ghost use Rattle.sp_plan.specs.Slots.{no_run, runs_of, is_in_lane_0, lane_size, stage_of, run_at};

use crate::NoMemory;
use sp_core::Stage;
use sp_plan::{Run, is_of_all, run_from, stage_in_lane};
use std::alloc::Global;

/// The stages of a body whose first one's first operation has a number.
pub(crate) fn runs_of(alloc: Global, number: u32, stages: &[Stage]) -> Result<Vec<Run>, NoMemory>
    requires { number + number_count_in (plain_stage_list stages.now) ≤ 2 ^ 30 }
    ensures { IfOk result (λ runs. map plain_run runs.items ≡ runs_of number (plain_stage_list stages.now)) }
{
    let mut runs = Vec::new(alloc);
    let mut from = number;
    for stage in stages {
        let run = run_from(from, stage.first, stage.last, &stage.node);
        runs.push(run)?;
        from = run.until;
    }
    Ok(runs)
}

/// The one at a place.
pub(crate) fn run_at(runs: &[Run], p: usize) -> Run
    requires { p < length runs.now }
    ensures { plain_run result ≡ run_at (map plain_run runs.now) p }
{
    runs[p]
}

/// How many stages a lane has.
pub(crate) fn lane_size(runs: &[Run]) -> usize
    ensures { result ≡ lane_size (map plain_run runs.now) }
{
    let mut count = 0;
    for run in runs {
        if !is_of_all(*run) && run.first == 0 {
            count += 1;
        }
    }
    count
}

/// The number of the stage at a place, in its lane; that of several lanes is the last one.
pub(crate) fn stage_of(runs: &[Run], lane: usize, p: usize) -> usize
    requires place { p < length runs.now }
    requires lane { lane ≡ lane_size (map plain_run runs.now) }
    ensures { result ≡ stage_of (map plain_run runs.now) p }
{
    stage_in_lane(run_at(runs, p), lane, p)
}
