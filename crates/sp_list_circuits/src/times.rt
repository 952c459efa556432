//! The times of operations that are done one after the other.
ghost use Rattle.std.specs.Prelude.{◌≡◌, ℕ, ◌+◌, ◌<◌, ◌^◌, length, slice_index, IfOk};
ghost use Rattle.sp_core.specs.CoreParts.{plain_core};
ghost use Rattle.sp_core.specs.Latency.{latency, latency_of_all};
ghost use Rattle.sp_core.specs.Plain.{plain_ops};
ghost use Rattle.sp_core.specs.PlainCore.{PlainOp};
ghost use Rattle.sp_part_runs.specs.ActsEntries.{IsOpAt};
ghost use Rattle.sp_node_runs.specs.BodiesLists.{turn_time};

use sp_core::{Core, Op};
use sp_netlist::NoMemory;
use sp_plan::latency;
use std::alloc::Global;

/// For each operation of a list the sum of the latencies of those before it, and the sum of all.
#[derive(Debug, Drop)]
pub(crate) struct TurnTimes {
    pub(crate) times: Vec<u32>,
    pub(crate) all: u32,
}

/// The sum of two numbers of cycles. One that passes 32 bits is answered as want of memory.
fn sum(cycles: u32, more: u32) -> Result<u32, NoMemory>
    ensures sum { IfOk result (λ all. all ≡ cycles + more) }
    ensures small { IfOk result (λ all. all < 2 ^ 32) }
{
    match cycles.checked_add(more) {
        Some(all) => Ok(all),
        None => Err(NoMemory),
    }
}

/// The times of operations that are done one after the other. Times that pass 32 bits are answered as want of memory.
pub(crate) fn turn_times(alloc: Global, core: &Core, ops: &[Op]) -> Result<TurnTimes, NoMemory>
    ensures many { IfOk result (λ turns. length turns.times.items ≡ length ops.now) }
    ensures times { IfOk result (λ turns. (k : ℕ) → k < length ops.now → slice_index turns.times.items k ≡ turn_time (plain_core core.now) (plain_ops ops.now) k) }
    ensures small { IfOk result (λ turns. turns.all < 2 ^ 32) }
    ensures all { IfOk result (λ turns. turns.all ≡ latency_of_all (plain_core core.now) (plain_ops ops.now)) }
{
    let mut times = Vec::new(alloc);
    let mut all: u32 = 0;
    for index in 0..ops.len() {
        times.push(all)?;
        all = sum(all, latency(core, &ops[index]))?;
    }
    Ok(TurnTimes { times, all })
}

/// The latency of each operation of a list.
pub(crate) fn latencies(alloc: Global, core: &Core, ops: &[Op]) -> Result<Vec<u32>, NoMemory>
    ensures many { IfOk result (λ each. length each.items ≡ length ops.now) }
    ensures each { IfOk result (λ each. (k : ℕ) (op : PlainOp) → IsOpAt (plain_ops ops.now) k op → slice_index each.items k ≡ latency (plain_core core.now) op) }
{
    let mut each = Vec::new(alloc);
    for index in 0..ops.len() {
        each.push(latency(core, &ops[index]))?;
    }
    Ok(each)
}
