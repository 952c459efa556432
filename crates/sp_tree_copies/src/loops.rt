//! What a loop does to the memories that it owns, and the nets of copies inside of it.
ghost use Rattle.std.specs.Prelude.{◌≡◌, ℕ, ◌<◌, [], length, slice_index, List, All, OnOk, IfOk, Option};
ghost use Rattle.sp_netlist.specs.Draft.{Draft};
ghost use Rattle.sp_gates.specs.Nets.{HasNet};
ghost use Rattle.sp_mem.specs.Fits.{CopyFits};
ghost use Rattle.sp_core.specs.CoreParts.{plain_core};
ghost use Rattle.sp_core.specs.Plain.{plain_stage_list};
ghost use Rattle.sp_plan.specs.Plain.{plain_node_plan};
ghost use Rattle.sp_machine.specs.Timeline.{slot_numbers};
ghost use Rattle.sp_copy_nets.specs.Numbers.{StandNumbers};
ghost use Rattle.sp_copy_nets.specs.Table.{numbers_at, own_numbers};
ghost use Rattle.sp_copy_nets.specs.Table as table;
ghost use Rattle.sp_tree_handed.specs.declared.owners.Keeping.{Keeping};
ghost use Rattle.sp_tree_handed.specs.Owners.{first_use, renewal};
ghost use Rattle.sp_tree_handed.specs.Standing.{TurnsStand};
ghost use Rattle.sp_tree_copies.specs.Loops.{CopiesStand};
ghost use Rattle.sp_tree_copies.specs.Naming.{renewed_by};
ghost use Rattle.sp_tree_copies.specs.Walks.{Adds, KeepsStanding, RenewsNext, WalkStands, inside, nets_in};

use crate::numbers::LoopCopies;
use crate::walk::Walk;
use sp_copy_nets::{SlotNumbers, with_own_numbers};
use sp_core::{Core, Stage};
use sp_netlist::{NetId, NoMemory};
use sp_plan::NodePlan;
use sp_tree_handed::{LoopTurns, Renewal, first_slot, stage_slots};
use std::alloc::Global;

/// Of the nets of a slot, that of a memory.
fn own_net(owned: &[u32], nets: &[Option<NetId>], m: u32) -> Option<NetId>
    ensures { result ≡ own_numbers owned.now nets.now m }
{
    let [first, others @ ..] = owned else {
        return None;
    };
    let [net, rest @ ..] = nets else {
        return None;
    };
    if m == *first {
        return *net;
    }
    own_net(others, rest, m)
}

/// The nets of a slot, where there is one.
fn nets_of(slots: &[SlotNumbers], slot: usize) -> &[Option<NetId>]
    ensures { result.now ≡ table.slot_numbers slots.now slot }
{
    match slots.get(slot) {
        Some(numbers) => &numbers.nets,
        None => &[],
    }
}

/// The net that is 1 where a slot gets a group; the loop's start where there is no such slot.
fn first_net(turns: &LoopTurns, slot: usize) -> NetId
    ensures exact { slot < length turns.now.firsts.items → result ≡ slice_index turns.now.firsts.items slot }
    ensures stand { (d : Draft) → TurnsStand d turns.now → HasNet d result 1 }
{
    match turns.firsts.get(slot) {
        Some(net) => *net,
        None => turns.start,
    }
}

/// The nets of the numbers that come to a slot, where there is one.
fn coming_nets(copies: &LoopCopies, slot: usize) -> &[Option<NetId>]
    ensures exact { slot < length copies.now.numbers.items → result.now ≡ table.slot_numbers copies.now.coming.items slot }
    ensures stand { (d : Draft) → CopiesStand d copies.now → StandNumbers d result.now }
{
    if slot < copies.numbers.len() {
        return nets_of(&copies.coming, slot);
    }
    &[]
}

/// How a loop makes a memory fresh, where this is the first slot that uses it.
fn renewal_in(
    turns: &LoopTurns,
    copies: &LoopCopies,
    owned: &[u32],
    slot: usize,
    mem: u32,
) -> Renewal
    ensures exact { slot < length turns.now.firsts.items → slot < length copies.now.numbers.items → result ≡ renewal mem (slice_index turns.now.firsts.items slot) (own_numbers owned.now (table.slot_numbers copies.now.coming.items slot) mem) }
    ensures net { (d : Draft) → TurnsStand d turns.now → HasNet d result.first 1 }
    ensures copy { (d : Draft) → CopiesStand d copies.now → CopyFits d result.copy }
{
    let first = first_net(turns, slot);
    let nets = coming_nets(copies, slot);
    let copy = own_net(owned, nets, mem);
    Renewal { mem, first, copy }
}

/// How it makes each of its memories fresh.
fn add_renewals(
    walk: &mut Walk,
    core: &Core,
    planned: &NodePlan,
    stages: &[Stage],
    owned: &[u32],
    turns: &LoopTurns,
    copies: &LoopCopies,
) -> Result<(), NoMemory>
    ensures adds { OnOk result (((m : ℕ) → first_use (plain_core core.now) (plain_node_plan planned.now) (plain_stage_list stages.now) m < length turns.now.firsts.items) → length copies.now.numbers.items ≡ length turns.now.firsts.items → Adds [] (renewed_by (first_use (plain_core core.now) (plain_node_plan planned.now) (plain_stage_list stages.now)) turns.now.firsts.items (λ x. own_numbers owned.now (table.slot_numbers copies.now.coming.items x)) owned.now) [] 0 0 walk.old walk.new) }
    ensures stand { OnOk result ((d : Draft) → TurnsStand d turns.now → CopiesStand d copies.now → WalkStands d (plain_core core.now) walk.old → WalkStands d (plain_core core.now) walk.new) }
{
    for index in 0..owned.len() {
        let mem = owned[index];
        let slot = first_slot(core, mem, stages, planned) as usize;
        let renewal = renewal_in(turns, copies, owned, slot, mem);
        walk.renewed.push(renewal)?;
    }
    Ok(())
}

/// The next loop makes its memories fresh.
pub(crate) fn renew_next(
    walk: &mut Walk,
    core: &Core,
    planned: &NodePlan,
    stages: &[Stage],
    owned: &[u32],
    turns: &[LoopTurns],
    loops: &[LoopCopies],
) -> Result<(), NoMemory>
    ensures renews { OnOk result (RenewsNext (plain_core core.now) (plain_node_plan planned.now) (plain_stage_list stages.now) owned.now turns.now loops.now walk.old walk.new) }
    ensures stand { OnOk result ((kept : List Keeping) (around : List (Option ℕ)) → KeepsStanding (plain_core core.now) turns.now kept loops.now around walk.old walk.new) }
{
    let at = walk.loops;
    let Some(own) = turns.get(at) else {
        return Ok(());
    };
    let Some(copies) = loops.get(at) else {
        return Ok(());
    };
    add_renewals(walk, core, planned, stages, owned, own, copies)?;
    walk.loops = at + 1;
    Ok(())
}

/// The nets of a slot of a loop, where there is one.
pub(crate) fn loop_nets(loops: &[LoopCopies], at: usize, slot: usize) -> &[Option<NetId>]
    ensures { result.now ≡ nets_in loops.now at slot }
{
    match loops.get(at) {
        Some(copies) => nets_of(&copies.numbers, slot),
        None => &[],
    }
}

/// The slot of a stage, and 0 where the plan has none.
pub(crate) fn stage_slot(planned: &NodePlan, stage: usize) -> usize
    ensures { result ≡ slice_index (slot_numbers (plain_node_plan planned.now)) stage }
{
    match stage_slots(planned).get(stage) {
        Some(slot) => *slot as usize,
        None => 0,
    }
}

/// The nets of copies inside of a slot, of which these are those of the memories that the loop owns.
pub(crate) fn inside_slot(
    alloc: Global,
    around: &[Option<NetId>],
    owned: &[u32],
    nets: &[Option<NetId>],
) -> Result<Vec<Option<NetId>>, NoMemory>
    requires { All (λ m. m < length around.now) owned.now }
    ensures long { IfOk result (λ all. length all.items ≡ length around.now) }
    ensures numbers { IfOk result (λ all. (m : ℕ) → numbers_at all.items m ≡ inside (numbers_at around.now) owned.now nets.now m) }
    ensures stand { IfOk result (λ all. (d : Draft) → StandNumbers d around.now → StandNumbers d nets.now → StandNumbers d all.items) }
{
    if nets.len() == owned.len() {
        let all = with_own_numbers(alloc, around, owned, nets)?;
        return Ok(all);
    }
    Ok(Vec::from_slice(alloc, around)?)
}
