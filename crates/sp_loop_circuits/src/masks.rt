//! The nets for the lanes of a loop.
ghost use Rattle.std.specs.Prelude.{◌≡◌, drop, IfOk};
ghost use Rattle.sp_node_runs.specs.BodiesRows.{wires_of};
ghost use Rattle.sp_stage_members.specs.Circuits.{masks_in};
ghost use Rattle.sp_stage_members.specs.Members.{masks_of};

use sp_beat_words::Row;
use sp_counters::Counted;
use sp_netlist::{NetId, NoMemory, Wire};
use std::alloc::Global;

/// The nets of wires behind so many.
fn nets_behind(alloc: Global, wires: &[Wire], count: usize) -> Result<Vec<NetId>, NoMemory>
    ensures { IfOk result (λ nets. nets.items ≡ drop count (wires_of wires.now)) }
{
    let mut nets = Vec::new(alloc);
    for index in 0..wires.len() {
        if count <= index {
            nets.push(wires[index].net)?;
        }
    }
    Ok(nets)
}

/// The nets for the lanes: those of the counters, and behind them those of each row, which stand there behind the counters'
/// values.
pub(crate) fn lane_masks(
    alloc: Global,
    counted: &Counted,
    rows: &[Row],
) -> Result<Vec<Vec<NetId>>, NoMemory>
    ensures { IfOk result (λ masks. masks_of masks.items ≡ masks_in counted.now rows.now) }
{
    let mut masks = Vec::new(alloc);
    masks.push(counted.masks.clone()?)?;
    for index in 0..rows.len() {
        let row = &rows[index];
        let nets = nets_behind(alloc, &row.wires, counted.counters.len())?;
        masks.push(nets)?;
    }
    Ok(masks)
}
