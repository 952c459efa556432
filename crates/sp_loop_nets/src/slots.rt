//! The nets of the counters around the stages of a slot.
ghost use Rattle.std.specs.Prelude.{◌≡◌, ℕ, ◌<◌, map, length, List, IfOk};
ghost use Rattle.sp_netlist.specs.Draft.{Draft};
ghost use Rattle.sp_core.specs.Around.{Near};
ghost use Rattle.sp_core.specs.Plain.{plain_counter};
ghost use Rattle.sp_beat_words.specs.Fits.{AreRows};
ghost use Rattle.sp_part_runs.specs.WordsLaws.{AreAsLong};
ghost use Rattle.sp_node_runs.specs.BodiesLaws.{own_near};
ghost use Rattle.sp_node_runs.specs.BodiesRows.{wires_of};
ghost use Rattle.sp_op_nets.specs.Table.{nets_at, StandAround};
ghost use Rattle.sp_tree_circuits.specs.Circuits.{slot_nets};
ghost use Rattle.sp_loop_nets.specs.Fits.{counted_wires};

use sp_around_tables::{counters_stand_inside, with_counters};
use sp_beat_words::Row;
use sp_core::CoreCounter;
use sp_counters::Counted;
use sp_netlist::{NetId, NoMemory, Wire};
use sp_op_nets::AroundNets;
use std::alloc::Global;

/// The nets of wires.
fn wire_nets(alloc: Global, wires: &[Wire]) -> Result<Vec<NetId>, NoMemory>
    ensures { IfOk result (λ nets. nets.items ≡ wires_of wires.now) }
{
    let mut nets = Vec::new(alloc);
    for index in 0..wires.len() {
        nets.push(wires[index].net)?;
    }
    Ok(nets)
}

/// The table of the nets around the stages of a slot: that around the loop, with an entry for each counter of the loop by the
/// slot's row of wires. Where there isn't one value for each counter and a mask for each lane, it answers want of memory.
pub fn slot_table(
    alloc: Global,
    around: &[AroundNets],
    counters: &[CoreCounter],
    counted: &Counted,
    rows: &[Row],
    slot: usize,
) -> Result<Vec<AroundNets>, NoMemory>
    requires slot { slot < length rows.now }
    requires long { AreAsLong (length (counted_wires counted.now)) rows.now }
    ensures nets { IfOk result (λ table. (number : ℕ) → nets_at table.items number ≡ slot_nets counted.now rows.now (nets_at around.now) (map plain_counter counters.now) slot number) }
    ensures stand { IfOk result (λ table. (d : Draft) (near : List Near) → StandAround d around.now near → AreRows d (counted_wires counted.now) rows.now → StandAround d table.items (own_near (map plain_counter counters.now) near)) }
{
    let nets = wire_nets(alloc, &rows[slot].wires)?;
    let (values, masks) = nets.split_at(counted.counters.len());
    let table = with_counters(alloc, around, counters, values, masks)?;
    counters_stand_inside();
    Ok(table)
}
