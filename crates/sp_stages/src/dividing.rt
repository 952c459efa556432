//! The slots of an outer body.

ghost use Rattle.std.specs.Prelude.{◌≡◌, ◌+◌, ◌<◌, ◌≤◌, ◌^◌, ◌||◌, ◌&&◌, not, if◌then◌else◌, map, length, IfOk};
ghost use Rattle.std.specs.List.{list_any};
ghost use Rattle.sp_core.specs.CoreParts.{plain_core};
ghost use Rattle.sp_core.specs.Elements.{numbers_below};
ghost use Rattle.sp_core.specs.Plain.{plain_counter};
ghost use Rattle.sp_plan.specs.Named.{names};
ghost use Rattle.sp_stages.specs.Divided.{slot_of, slots_of};
ghost use Rattle.sp_plan.specs.Runs.{plain_named, plain_run};
ghost use Rattle.sp_stages.specs.Parts.{covers};

use crate::NoMemory;
use crate::pairs::{Held, is_covered, pairs};
use crate::runs::{lane_size, stage_of};
use sp_core::{Core, CoreCounter, Meet};
use sp_plan::{Named, Run, has_one_slot, is_once};
use sp_words::Style;
use std::alloc::Global;

/// The slot of the next stage.
fn next_slot(slot: u32, joined: bool) -> u32
    requires { slot < 2 ^ 31 }
    ensures { result ≡ slot + (if joined then 0 else 1) }
{
    if joined { slot } else { slot + 1 }
}

/// The slot of each stage up to this one, where all stages have one slot, or those that are held together.
fn slots_by_stage(
    alloc: Global,
    one: bool,
    once: bool,
    held: &[Held],
    last: usize,
) -> Result<Vec<u32>, NoMemory>
    requires { last ≤ 2 ^ 30 }
    ensures { IfOk result (λ slots. slots.items ≡ map (slot_of (λ k. one || (not once && list_any (covers k) held.now))) (numbers_below (last + 1))) }
{
    let mut slots = Vec::new(alloc);
    let mut slot = 0;
    slots.push(slot)?;
    for k in 0..last {
        slot = next_slot(slot, one || (!once && is_covered(held, k)));
        slots.push(slot)?;
    }
    Ok(slots)
}

/// The slot of each run.
pub(crate) fn slots_of(
    alloc: Global,
    core: &Core,
    all: &[Named],
    counters: &[CoreCounter],
    style: Style,
    owned: &[u32],
    runs: &[Run],
    meets: &[Meet],
) -> Result<Vec<u32>, NoMemory>
    requires all { map plain_named all.now ≡ names (plain_core core.now) (plain_core core.now).root }
    requires few { length runs.now ≤ 2 ^ 30 }
    ensures { IfOk result (λ slots. slots.items ≡ slots_of (plain_core core.now) meets.now (map plain_counter counters.now) style owned.now (map plain_run runs.now)) }
{
    let lane = lane_size(runs);
    let held = pairs(alloc, core, all, owned, runs, lane, meets)?;
    let one = has_one_slot(counters, style);
    let by_stage = slots_by_stage(alloc, one, is_once(counters), &held, runs.len())?;
    let mut slots = Vec::new(alloc);
    for p in 0..runs.len() {
        slots.push(by_stage[stage_of(runs, lane, p)])?;
    }
    Ok(slots)
}
