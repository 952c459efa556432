//! Runs: steps of one task behind each other, by the places of their nets in a row. A run is one loop that takes no
//! branch on what its steps do.
ghost use Rattle.std.specs.Prelude.{◌≡◌, ◌<◌, ◌≤◌, length, slice_index_or, take, All, IfOk};
ghost use Rattle.std.specs.List.Sorted.{IsStrictlyIncreasing};
ghost use Rattle.sp_sim.specs.Runs.{cell_in, run_cells, runs_cells, AreWithin, IsRunWithin, StepStands, IsPlaced};
ghost use Rattle.sp_sim.specs.Steps.{cell_of, cells_of};

use crate::NoMemory;
use crate::row::searched;
use crate::same::is_task;
use crate::step::{Step, Task};
use sp_netlist::NetId;
use std::alloc::Global;

/// Where the net of a step and its operands stand in a row. A task with fewer than three operands leaves the later
/// ones alone.
#[derive(Clone, Copy)]
pub(crate) struct Places {
    pub(crate) net: usize,
    pub(crate) first: usize,
    pub(crate) second: usize,
    pub(crate) third: usize,
}

/// Steps of one task.
#[derive(Drop)]
pub(crate) struct Run {
    pub(crate) task: Task,
    pub(crate) places: Vec<Places>,
}

/// The place of a net. Of one that doesn't stand among the nets any place will do.
fn place_in(nets: &[u64], net: NetId) -> usize
    requires ascending { IsStrictlyIncreasing nets.now }
    requires some { 0 < length nets.now }
    ensures { IsPlaced nets.now net result }
{
    let place = searched(nets, net.number());
    if place < nets.len() { place } else { 0 }
}

/// Where the nets of a step stand.
fn places_of(nets: &[u64], step: &Step) -> Places
    requires ascending { IsStrictlyIncreasing nets.now }
    requires stands { StepStands nets.now step.now }
    ensures within { AreWithin (length nets.now) result }
    ensures same { cell_in nets.now step.now.task result ≡ cell_of step.now }
{
    Places {
        net: place_in(nets, step.net),
        first: place_in(nets, step.first),
        second: place_in(nets, step.second),
        third: place_in(nets, step.third),
    }
}

/// How many of the steps have the task of the first.
fn count_same(steps: &[Step]) -> usize
    requires { 0 < length steps.now }
    ensures some { 0 < result }
    ensures within { result ≤ length steps.now }
    ensures same { (first : Step) → All (λ s. s.task ≡ (slice_index_or steps.now 0 first).task) (take result steps.now) }
{
    let task = steps[0].task;
    let mut count = 1;
    while count < steps.len() && is_task(steps[count].task, task) {
        count += 1;
    }
    count
}

/// The run of steps that have one task.
fn run_of(alloc: Global, nets: &[u64], task: Task, steps: &[Step]) -> Result<Run, NoMemory>
    requires ascending { IsStrictlyIncreasing nets.now }
    requires stand { All (StepStands nets.now) steps.now }
    requires same { All (λ s. s.task ≡ task) steps.now }
    ensures within { IfOk result (IsRunWithin (length nets.now)) }
    ensures same { IfOk result (λ run. run_cells nets.now run ≡ cells_of steps.now) }
{
    let mut places = Vec::with_capacity(alloc, steps.len())?;
    for step in steps {
        places.push(places_of(nets, step))?;
    }
    Ok(Run { task, places })
}

/// The steps, run by run.
pub(crate) fn runs_of(alloc: Global, nets: &[u64], steps: &[Step]) -> Result<Vec<Run>, NoMemory>
    requires ascending { IsStrictlyIncreasing nets.now }
    requires stand { All (StepStands nets.now) steps.now }
    ensures within { IfOk result (λ runs. All (IsRunWithin (length nets.now)) runs.items) }
    ensures same { IfOk result (λ runs. runs_cells nets.now runs.items ≡ cells_of steps.now) }
{
    let mut runs = Vec::new(alloc);
    let mut rest = steps;
    while !rest.is_empty() {
        let count = count_same(rest);
        let (run, later) = rest.split_at(count);
        runs.push(run_of(alloc, nets, run[0].task, run)?)?;
        rest = later;
    }
    Ok(runs)
}
