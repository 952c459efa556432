//! The members of slots, by stages in their places.
ghost use Rattle.std.specs.Prelude.{◌≡◌, ℕ, ◌+◌, ◌^◌, ◌<◌, ◌≤◌, ◌↔◌, [], length, IfOk, OnOk, Contains};
ghost use Rattle.std.specs.List.{concat};
ghost use Rattle.sp_netlist.specs.Signals.{Signals};
ghost use Rattle.sp_gates.specs.Grows.{Fills};
ghost use Rattle.sp_gates.specs.Runs.{RunsOn};
ghost use Rattle.sp_sequence.specs.Fits.{AreSlots, WantedFits, slot_starts};
ghost use Rattle.sp_part_runs.specs.SequencesPlaces.{sizes};
ghost use Rattle.sp_part_runs.specs.SequencesRuns.{shape_of};
ghost use Rattle.sp_stage_members.specs.Members.{masks_at, masks_of, told_row, IsWanted, MasksStand, PartsFit, AreMembersOf, AreChainsOf, AreSlotsOf, starts_in};
ghost use Rattle.sp_stage_members.specs.Placed.{chains_in, places_of, StandOnce};

use crate::part::StagePart;
use crate::placed::{PlacedChain, PlacedSlot};
use crate::wanted::wanted_net;
use sp_netlist::{Builder, NetId, NoMemory};
use sp_sequence::{Chain, Member, Slot};
use std::alloc::Global;

/// The number of the list of nets that tells whether a member is wanted.
fn told_row(slot: usize, number: usize) -> usize
    requires { slot + 1 < 2 ^ 64 }
    ensures { result ≡ told_row slot number }
{
    if number == 0 { slot } else { slot + 1 }
}

/// What tells whether a stage is wanted, by the nets of a list.
fn stage_wanted(
    builder: &mut Builder,
    part: &StagePart,
    masks: &[Vec<NetId>],
    row: usize,
) -> Result<Option<NetId>, NoMemory>
    requires order { part.now.first ≤ part.now.last }
    requires lanes { 1 ≤ part.now.first → part.now.last < length (masks_at (masks_of masks.now) row) }
    requires masks { MasksStand builder.old (masks_of masks.now) }
    ensures fills { OnOk result (Fills builder.old builder.new []) }
    ensures fits { IfOk result (λ wanted. WantedFits builder.new wanted) }
    ensures told { IfOk result (λ wanted. (s : Signals) → RunsOn s builder.new.cells → IsWanted s (masks_at (masks_of masks.now) row) part.now.first part.now.last wanted) }
{
    match masks.get(row) {
        Some(told) => wanted_net(builder, told, part.first, part.last),
        None => Ok(None),
    }
}

/// The members of a chain of a slot.
fn chain_members(
    alloc: Global,
    builder: &mut Builder,
    chain: &[usize],
    stages: &[StagePart],
    masks: &[Vec<NetId>],
    slot: usize,
) -> Result<Chain, NoMemory>
    requires slot { slot + 1 < 2 ^ 64 }
    requires chain { (s : ℕ) → Contains chain.now s → s < length stages.now }
    requires stages { PartsFit builder.old (masks_of masks.now) (slot + 1) stages.now }
    ensures fills { OnOk result (Fills builder.old builder.new []) }
    ensures members { IfOk result (λ c. AreMembersOf builder.new (masks_of masks.now) stages.now slot chain.now c.members.items) }
{
    let mut members = Vec::new(alloc);
    for number in 0..chain.len() {
        let part = &stages[chain[number]];
        let wanted = stage_wanted(builder, part, masks, told_row(slot, number))?;
        members.push(Member {
            child: part.child,
            wanted,
        })?;
    }
    Ok(Chain { members })
}

/// The chains of a slot.
fn slot_members(
    alloc: Global,
    builder: &mut Builder,
    chains: &[PlacedChain],
    stages: &[StagePart],
    masks: &[Vec<NetId>],
    slot: usize,
) -> Result<Slot, NoMemory>
    requires slot { slot + 1 < 2 ^ 64 }
    requires chains { (s : ℕ) → Contains (concat (chains_in chains.now)) s → s < length stages.now }
    requires stages { PartsFit builder.old (masks_of masks.now) (slot + 1) stages.now }
    ensures fills { OnOk result (Fills builder.old builder.new []) }
    ensures chains { IfOk result (λ placed. AreChainsOf builder.new (masks_of masks.now) stages.now slot (chains_in chains.now) placed.chains.items) }
{
    let mut found = Vec::new(alloc);
    for index in 0..chains.len() {
        let chain = &chains[index];
        let members = chain_members(alloc, builder, &chain.stages, stages, masks, slot)?;
        found.push(members)?;
    }
    Ok(Slot { chains: found })
}

/// The slots of a loop, with the stages in their places as members. Whether a stage is wanted is told by nets for the lanes: those
/// of the counters stand first, and behind them those of each slot; the first member of a chain is told by those before its slot,
/// and each other one by those of its slot.
pub fn stage_members(
    alloc: Global,
    builder: &mut Builder,
    places: &[PlacedSlot],
    stages: &[StagePart],
    masks: &[Vec<NetId>],
) -> Result<Vec<Slot>, NoMemory>
    requires places { StandOnce (length stages.now) (places_of places.now) }
    requires stages { PartsFit builder.old (masks_of masks.now) (length places.now) stages.now }
    ensures fills { OnOk result (Fills builder.old builder.new []) }
    ensures members { IfOk result (λ slots. AreSlotsOf builder.new (masks_of masks.now) stages.now (places_of places.now) slots.items) }
    ensures shaped { IfOk result (λ slots. shape_of slots.items ≡ sizes (places_of places.now)) }
    ensures slots { IfOk result (λ slots. AreSlots builder.new slots.items) }
    ensures starts { IfOk result (λ slots. (net : ℕ) → Contains (slot_starts slots.items) net ↔ Contains (starts_in stages.now) net) }
{
    let mut slots = Vec::new(alloc);
    for index in 0..places.len() {
        let placed = &places[index];
        let slot = slot_members(alloc, builder, &placed.chains, stages, masks, index)?;
        slots.push(slot)?;
    }
    Ok(slots)
}
