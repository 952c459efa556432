//! The wires before the first slot, and a row of promised ones for each slot.
ghost use Rattle.std.specs.Prelude.{◌≡◌, ◌++◌, length, IfOk, All};
ghost use Rattle.sp_beat_words.specs.Fits.{AreRows, IsRow, nets_of, row_nets};
ghost use Rattle.sp_part_runs.specs.WordsLaws.{AreAsLong};
ghost use Rattle.sp_node_runs.specs.BodiesGiven.{values_of};
ghost use Rattle.sp_node_runs.specs.BodiesRows.{wires_of};
ghost use Rattle.sp_op_nets.specs.Reserved.{Reserves};
ghost use Rattle.sp_loop_nets.specs.Fits.{CountedStand, WireStands, counted_wires};

use sp_beat_words::Row;
use sp_counters::Counted;
use sp_gates::reserve;
use sp_netlist::{Builder, NoMemory, Wire};
use std::alloc::Global;

/// The wires of a loop that go along with its groups: those from which the first slot takes, and for each slot a row of them.
#[derive(Debug, Drop)]
pub struct Rows {
    pub before: Vec<Wire>,
    pub rows: Vec<Row>,
}

/// The wires of the values of counters, and behind them of their masks.
fn wires_before(alloc: Global, counted: &Counted) -> Result<Vec<Wire>, NoMemory>
    ensures { IfOk result (λ wires. wires.items ≡ counted_wires counted.now) }
{
    let mut wires = Vec::new(alloc);
    for index in 0..counted.counters.len() {
        let net = counted.counters[index].value;
        wires.push(Wire { net, width: 32 })?;
    }
    for index in 0..counted.masks.len() {
        let net = counted.masks[index];
        wires.push(Wire { net, width: 1 })?;
    }
    Ok(wires)
}

/// A row of promised wires, as wide as these.
fn open_row(alloc: Global, builder: &mut Builder, before: &[Wire]) -> Result<Row, NoMemory>
    requires { All (WireStands builder.old) before.now }
    ensures row { IfOk result (λ row. IsRow builder.new before.now row.wires.items) }
    ensures reserves { IfOk result (λ row. Reserves builder.old builder.new (nets_of row.wires.items)) }
{
    let mut wires = Vec::new(alloc);
    for index in 0..before.len() {
        let width = before[index].width;
        let net = reserve(builder, width)?;
        wires.push(Wire { net, width })?;
    }
    Ok(Row { wires })
}

/// The wires from which the first slot of a loop takes its words, which are the values of the loop's counters and behind them
/// the masks, and for each slot a row of wires that are promised: `emit_words` is to drive them.
pub fn open_rows(
    alloc: Global,
    builder: &mut Builder,
    counted: &Counted,
    slots: usize,
) -> Result<Rows, NoMemory>
    requires { CountedStand builder.old counted.now }
    ensures wires { IfOk result (λ all. all.before.items ≡ counted_wires counted.now) }
    ensures first { IfOk result (λ all. wires_of all.before.items ≡ values_of counted.now.counters.items ++ counted.now.masks.items) }
    ensures rows { IfOk result (λ all. AreRows builder.new all.before.items all.rows.items) }
    ensures long { IfOk result (λ all. AreAsLong (length all.before.items) all.rows.items) }
    ensures each { IfOk result (λ all. length all.rows.items ≡ slots) }
    ensures reserves { IfOk result (λ all. Reserves builder.old builder.new (row_nets all.rows.items)) }
{
    let before = wires_before(alloc, counted)?;
    let mut rows = Vec::new(alloc);
    for _slot in 0..slots {
        let row = open_row(alloc, builder, &before)?;
        rows.push(row)?;
    }
    Ok(Rows { before, rows })
}
