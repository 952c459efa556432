//! The stages that meets hold together.

ghost use Rattle.std.specs.Prelude.{◌≡◌, ℕ, ◌<◌, ◌||◌, [], map, length, IfOk, OnOk};
ghost use Rattle.std.specs.List.{list_any};
ghost use Rattle.sp_core.specs.CoreParts.{plain_core};
ghost use Rattle.sp_plan.specs.Named.{names};
ghost use Rattle.sp_plan.specs.Slots.{lane_size, is_pair};
ghost use Rattle.sp_stages.specs.Divided.{is_over, is_over_any, is_over_end};
ghost use Rattle.sp_plan.specs.Runs.{plain_named, plain_run};
ghost use Rattle.sp_stages.specs.Parts.{covers};

use crate::NoMemory;
use crate::names::share_other;
use crate::runs::{run_at, stage_of};
use sp_core::{Core, Meet};
use sp_plan::{Named, Run, is_within, least_of};
use std::alloc::Global;

/// Stages from one on up to another that are held together.
#[derive(Clone, Copy, Debug)]
pub(crate) struct Held {
    pub begin: usize,
    pub end: usize,
}

/// Whether a meet holds a run and one of an earlier stage together.
fn is_pair(
    core: &Core,
    all: &[Named],
    owned: &[u32],
    runs: &[Run],
    lane: usize,
    meet: Meet,
    p: usize,
    q: usize,
) -> bool
    requires all { map plain_named all.now ≡ names (plain_core core.now) (plain_core core.now).root }
    requires lane { lane ≡ lane_size (map plain_run runs.now) }
    requires p { p < length runs.now }
    requires q { q < length runs.now }
    ensures { result ≡ is_pair (map plain_run runs.now) [] [] (plain_core core.now) owned.now p q meet }
{
    let apart = stage_of(runs, lane, p).saturating_sub(stage_of(runs, lane, q));
    (is_within(run_at(runs, p), meet.first) && is_within(run_at(runs, q), meet.second))
        && (least_of(core, meet) <= apart as u64
            && share_other(core, all, owned, meet.first, meet.second))
}

/// What a meet holds together of two runs.
fn push_pair(
    core: &Core,
    all: &[Named],
    owned: &[u32],
    runs: &[Run],
    lane: usize,
    meet: Meet,
    p: usize,
    q: usize,
    into: &mut Vec<Held>,
) -> Result<(), NoMemory>
    requires all { map plain_named all.now ≡ names (plain_core core.now) (plain_core core.now).root }
    requires lane { lane ≡ lane_size (map plain_run runs.now) }
    requires p { p < length runs.now }
    requires q { q < length runs.now }
    ensures { OnOk result ((k : ℕ) → list_any (covers k) into.new.items ≡ (list_any (covers k) into.old.items || is_over (plain_core core.now) owned.now (map plain_run runs.now) k meet p q)) }
{
    if !is_pair(core, all, owned, runs, lane, meet, p, q) {
        return Ok(());
    }
    let begin = stage_of(runs, lane, q);
    let end = stage_of(runs, lane, p);
    into.push(Held { begin, end })?;
    Ok(())
}

/// Those that a meet holds together with the run at a place.
fn push_pairs_of(
    core: &Core,
    all: &[Named],
    owned: &[u32],
    runs: &[Run],
    lane: usize,
    meet: Meet,
    p: usize,
    into: &mut Vec<Held>,
) -> Result<(), NoMemory>
    requires all { map plain_named all.now ≡ names (plain_core core.now) (plain_core core.now).root }
    requires lane { lane ≡ lane_size (map plain_run runs.now) }
    requires p { p < length runs.now }
    ensures { OnOk result ((k : ℕ) → list_any (covers k) into.new.items ≡ (list_any (covers k) into.old.items || is_over_any (plain_core core.now) owned.now (map plain_run runs.now) k meet p)) }
{
    if !is_within(run_at(runs, p), meet.first) {
        return Ok(());
    }
    for q in 0..runs.len() {
        push_pair(core, all, owned, runs, lane, meet, p, q, into)?;
    }
    Ok(())
}

/// Those that a meet holds together.
fn push_pairs(
    core: &Core,
    all: &[Named],
    owned: &[u32],
    runs: &[Run],
    lane: usize,
    meet: Meet,
    into: &mut Vec<Held>,
) -> Result<(), NoMemory>
    requires all { map plain_named all.now ≡ names (plain_core core.now) (plain_core core.now).root }
    requires lane { lane ≡ lane_size (map plain_run runs.now) }
    ensures { OnOk result ((k : ℕ) → list_any (covers k) into.new.items ≡ (list_any (covers k) into.old.items || is_over_end (plain_core core.now) owned.now (map plain_run runs.now) k meet)) }
{
    for p in 0..runs.len() {
        push_pairs_of(core, all, owned, runs, lane, meet, p, into)?;
    }
    Ok(())
}

/// Those that one of the meets holds together.
pub(crate) fn pairs(
    alloc: Global,
    core: &Core,
    all: &[Named],
    owned: &[u32],
    runs: &[Run],
    lane: usize,
    meets: &[Meet],
) -> Result<Vec<Held>, NoMemory>
    requires all { map plain_named all.now ≡ names (plain_core core.now) (plain_core core.now).root }
    requires lane { lane ≡ lane_size (map plain_run runs.now) }
    ensures { IfOk result (λ held. (k : ℕ) → list_any (covers k) held.items ≡ list_any (is_over_end (plain_core core.now) owned.now (map plain_run runs.now) k) meets.now) }
{
    let mut held = Vec::new(alloc);
    for meet in meets {
        push_pairs(core, all, owned, runs, lane, *meet, &mut held)?;
    }
    Ok(held)
}

/// Whether a stage and the next one are among those that are held together.
pub(crate) fn is_covered(held: &[Held], k: usize) -> bool
    ensures { result ≡ list_any (covers k) held.now }
{
    for h in held {
        if h.begin <= k && k < h.end {
            return true;
        }
    }
    false
}
