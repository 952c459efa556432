//! Stages by slots and chains, from the slot and the chain of each.
ghost use Rattle.std.specs.Prelude.{◌≡◌, ℕ, ◌<◌, ◌≤◌, length, IfOk};
ghost use Rattle.sp_time.specs.Beats.{slot_at, is_slot};
ghost use Rattle.sp_machine.specs.Timeline.{slots_from};
ghost use Rattle.sp_part_runs.specs.SequencesPlaces.{AreArranged, last_slot, stages_in};
ghost use Rattle.sp_stage_places.specs.Arranged.{arranged, begins_chain, chains_of, is_seen};
ghost use Rattle.sp_stage_members.specs.Placed.{chains_in, places_of, StandOnce, HasStage};

use crate::laws::stages_stand_once;
use crate::placed::{PlacedChain, PlacedSlot};
use sp_netlist::NoMemory;
use sp_stage_places::stages_are_arranged;
use std::alloc::Global;

/// Whether two stages are in one chain.
fn are_together(slots: &[u32], chains: &[u32], one: usize, other: usize) -> bool
    requires each { length slots.now ≡ length chains.now }
    requires one_in { one < length slots.now }
    requires other_in { other < length slots.now }
    ensures { result ≡ is_slot (slot_at (slots_from slots.now chains.now) one) (slot_at (slots_from slots.now chains.now) other) }
{
    slots[one] == slots[other] && chains[one] == chains[other]
}

/// Whether a stage before this one is in its chain.
fn is_later(slots: &[u32], chains: &[u32], stage: usize) -> bool
    requires each { length slots.now ≡ length chains.now }
    requires stage_in { stage < length slots.now }
    ensures { result ≡ is_seen (slots_from slots.now chains.now) (slot_at (slots_from slots.now chains.now) stage) stage }
{
    let mut later = false;
    for earlier in 0..stage {
        later = are_together(slots, chains, earlier, stage) || later;
    }
    later
}

/// Whether a stage is the first one of a chain of this slot.
fn begins(slots: &[u32], chains: &[u32], slot: usize, stage: usize) -> bool
    requires each { length slots.now ≡ length chains.now }
    requires stage_in { stage < length slots.now }
    ensures { result ≡ begins_chain (slots_from slots.now chains.now) slot stage }
{
    slots[stage] as usize == slot && !is_later(slots, chains, stage)
}

/// The stages of a chain, by one of them.
fn chain_with(
    alloc: Global,
    slots: &[u32],
    chains: &[u32],
    stage: usize,
) -> Result<PlacedChain, NoMemory>
    requires each { length slots.now ≡ length chains.now }
    requires stage_in { stage < length slots.now }
    ensures { IfOk result (λ chain. chain.stages.items ≡ stages_in (slots_from slots.now chains.now) (slot_at (slots_from slots.now chains.now) stage) (length (slots_from slots.now chains.now))) }
{
    let mut stages = Vec::new(alloc);
    for number in 0..slots.len() {
        if are_together(slots, chains, number, stage) {
            stages.push(number)?;
        }
    }
    Ok(PlacedChain { stages })
}

/// The chains of a slot.
fn slot_chains(
    alloc: Global,
    slots: &[u32],
    chains: &[u32],
    slot: usize,
) -> Result<PlacedSlot, NoMemory>
    requires { length slots.now ≡ length chains.now }
    ensures { IfOk result (λ placed. chains_in placed.chains.items ≡ chains_of (slots_from slots.now chains.now) slot (length (slots_from slots.now chains.now))) }
{
    let mut found = Vec::new(alloc);
    for stage in 0..slots.len() {
        if begins(slots, chains, slot, stage) {
            let chain = chain_with(alloc, slots, chains, stage)?;
            found.push(chain)?;
        }
    }
    Ok(PlacedSlot { chains: found })
}

/// The greatest slot of a stage.
fn greatest_slot(slots: &[u32], chains: &[u32]) -> u32
    requires { length slots.now ≡ length chains.now }
    ensures { result ≡ last_slot (slots_from slots.now chains.now) }
{
    let mut last = 0;
    for slot in slots {
        if last < *slot {
            last = *slot;
        }
    }
    last
}

/// The stages of a loop by slots, chains and members, where a plan gives each stage its slot and its chain. The chains of a slot
/// are in the order of their first stages.
pub fn arrange(alloc: Global, slots: &[u32], chains: &[u32]) -> Result<Vec<PlacedSlot>, NoMemory>
    requires { length slots.now ≡ length chains.now }
    ensures places { IfOk result (λ placed. places_of placed.items ≡ arranged (slots_from slots.now chains.now)) }
    ensures once { IfOk result (λ placed. StandOnce (length slots.now) (places_of placed.items)) }
    ensures arranged { IfOk result (λ placed. ((k : ℕ) → k ≤ last_slot (slots_from slots.now chains.now) → HasStage (slots_from slots.now chains.now) k) → AreArranged (places_of placed.items) (slots_from slots.now chains.now)) }
{
    stages_are_arranged();
    stages_stand_once();
    let last = greatest_slot(slots, chains);
    let mut placed = Vec::new(alloc);
    for slot in 0..last as usize + 1 {
        let chains = slot_chains(alloc, slots, chains, slot)?;
        placed.push(chains)?;
    }
    Ok(placed)
}
