//! The table inside of a controller.
ghost use Rattle.std.specs.Prelude.{◌≡◌, ℕ, suc, ◌≤◌, [], map, length, Contains, true, IfOk, OnOk};
ghost use Rattle.sp_core.specs.Around.{lanes_of};
ghost use Rattle.sp_core.specs.Plain.{plain_counter};
ghost use Rattle.sp_core.specs.PlainCore.{PlainCounter};
ghost use Rattle.sp_core.specs.Store.{changed};
ghost use Rattle.sp_node_runs.specs.BodiesGiven.{net_step};
ghost use Rattle.sp_op_nets.specs.Table.{nets_at};
ghost use Rattle.sp_around_tables.specs.Inside.{HasEntries, IsInside, entry_of};

use sp_core::CoreCounter;
use sp_netlist::{NetId, NoMemory};
use sp_op_nets::AroundNets;
use std::alloc::Global;

/// An entry for a number that no counter has.
fn no_nets(alloc: Global) -> AroundNets
    ensures value { result.value ≡ 0 }
    ensures step { result.step ≡ 0 }
    ensures masks { result.masks.items ≡ [] }
{
    AroundNets {
        value: NetId::new(0),
        step: 0,
        masks: Vec::new(alloc),
    }
}

/// The same entry.
fn same_nets(nets: &AroundNets) -> Result<AroundNets, NoMemory>
    ensures value { IfOk result (λ same. same.value ≡ nets.now.value) }
    ensures step { IfOk result (λ same. same.step ≡ nets.now.step) }
    ensures masks { IfOk result (λ same. same.masks.items ≡ nets.now.masks.items) }
{
    Ok(AroundNets {
        value: nets.value,
        step: nets.step,
        masks: nets.masks.clone()?,
    })
}

/// The same table.
fn same_table(alloc: Global, around: &[AroundNets]) -> Result<Vec<AroundNets>, NoMemory>
    ensures nets { IfOk result (λ same. (n : ℕ) → nets_at same.items n ≡ nets_at around.now n) }
    ensures many { IfOk result (λ same. length same.items ≡ length around.now) }
{
    let mut table = Vec::new(alloc);
    for index in 0..around.len() {
        table.push(same_nets(&around[index])?)?;
    }
    Ok(table)
}

/// Entries that no counter has, until there is one for the number.
fn lengthen(alloc: Global, table: &mut Vec<AroundNets>, number: u32) -> Result<(), NoMemory>
    ensures nets { OnOk result ((n : ℕ) → nets_at table.new.items n ≡ nets_at table.old.items n) }
    ensures longer { OnOk result (length table.old.items ≤ length table.new.items) }
    ensures within { OnOk result (suc number ≤ length table.new.items) }
{
    for _ in table.len()..number as usize + 1 {
        table.push(no_nets(alloc))?;
    }
    Ok(())
}

/// How much more the value of a counter is from one lane to the next, by the counters behind it: only the last one has lanes.
fn step_of(counter: &CoreCounter, behind: &[CoreCounter]) -> u32
    ensures { result ≡ net_step (plain_counter counter.now) (map plain_counter behind.now) }
{
    if behind.is_empty() { counter.by } else { 0 }
}

/// The entry of one counter, in place of what its number had.
fn set_counter(
    alloc: Global,
    table: &mut Vec<AroundNets>,
    counter: &CoreCounter,
    behind: &[CoreCounter],
    value: NetId,
    masks: &[NetId],
) -> Result<(), NoMemory>
    ensures nets { OnOk result ((n : ℕ) → nets_at table.new.items n ≡ changed (nets_at table.old.items) counter.now.id (entry_of (plain_counter counter.now) (map plain_counter behind.now) value masks.now) n) }
    ensures longer { OnOk result (length table.old.items ≤ length table.new.items) }
    ensures within { OnOk result (suc counter.now.id ≤ length table.new.items) }
{
    lengthen(alloc, table, counter.id)?;
    let step = step_of(counter, behind);
    let masks = masks.to_vec(alloc)?;
    table[counter.id as usize] = AroundNets { value, step, masks };
    Ok(())
}

/// The entries of a controller's counters, in place of what their numbers had.
fn set_counters(
    alloc: Global,
    table: &mut Vec<AroundNets>,
    counters: &[CoreCounter],
    values: &[NetId],
    masks: &[NetId],
) -> Result<(), NoMemory>
    requires many { length values.now ≡ length counters.now }
    ensures { OnOk result (HasEntries (map plain_counter counters.now) table.old.items values.now masks.now table.new.items) }
{
    let [counter, behind @ ..] = counters else {
        return Ok(());
    };
    let [value, others @ ..] = values else {
        return Ok(());
    };
    set_counter(alloc, table, counter, behind, *value, masks)?;
    set_counters(alloc, table, behind, others, masks)?;
    Ok(())
}

/// How many lanes there are: those of the last counter.
fn lanes(counters: &[CoreCounter]) -> u32
    ensures { (c : PlainCounter) → Contains (map plain_counter counters.now) c → lanes_of (map plain_counter counters.now) ≡ result }
{
    let [counter, behind @ ..] = counters else {
        return 0;
    };
    if behind.is_empty() {
        counter.par
    } else {
        lanes(behind)
    }
}

/// Whether there are a value for each counter, and a net for each lane.
fn are_enough(counters: &[CoreCounter], values: &[NetId], masks: &[NetId]) -> bool
    ensures many { result ≡ true → length values.now ≡ length counters.now }
    ensures lanes { result ≡ true → (c : PlainCounter) → Contains (map plain_counter counters.now) c → lanes_of (map plain_counter counters.now) ≤ length masks.now }
{
    let lanes = lanes(counters);
    values.len() == counters.len() && lanes as usize <= masks.len()
}

/// The table inside of a controller: that around it with an entry for each of its counters, by the nets of their values and of the
/// lanes of the last one. Where there isn't a value for each counter, or a net for each lane, it answers want of memory.
pub fn with_counters(
    alloc: Global,
    around: &[AroundNets],
    counters: &[CoreCounter],
    values: &[NetId],
    masks: &[NetId],
) -> Result<Vec<AroundNets>, NoMemory>
    ensures { IfOk result (λ inside. IsInside (map plain_counter counters.now) around.now values.now masks.now inside.items) }
{
    if !are_enough(counters, values, masks) {
        return Err(NoMemory);
    }
    let mut inside = same_table(alloc, around)?;
    set_counters(alloc, &mut inside, counters, values, masks)?;
    Ok(inside)
}
