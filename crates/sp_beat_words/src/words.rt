//! Words that move on from slot to slot.
ghost use Rattle.std.specs.Prelude.{◌≡◌, ℕ, [], ◌∷◌, ◌++◌, OnOk};
ghost use Rattle.sp_netlist.specs.Signals.{Signals};
ghost use Rattle.sp_gates.specs.Grows.{Fills};
ghost use Rattle.sp_gates.specs.Nets.{HasNet};
ghost use Rattle.sp_gates.specs.Runs.{RunsOn};
ghost use Rattle.sp_beat_words.specs.Fits.{AreRows, IsRow, nets_of, row_nets};
ghost use Rattle.sp_beat_words.specs.Words.{MoveOn, Takes};

use crate::part::Row;
use sp_gates::drive;
use sp_netlist::{Builder, NetId, NoMemory, Wire};

/// Drives the wires of a row: in each step each takes the word of the wire before it.
fn emit_row(
    builder: &mut Builder,
    step: NetId,
    before: &[Wire],
    wires: &[Wire],
) -> Result<(), NoMemory>
    requires step { HasNet builder.old step 1 }
    requires row { IsRow builder.old before.now wires.now }
    ensures fills { OnOk result (Fills builder.old builder.new (nets_of wires.now)) }
    ensures takes { OnOk result ((s : Signals) → RunsOn s builder.new.cells → Takes s step before.now wires.now) }
{
    let [wire, others @ ..] = wires else {
        return Ok(());
    };
    let [from, earlier @ ..] = before else {
        return Ok(());
    };
    drive(builder, wire.net, wire.width, 0, from.net, step)?;
    emit_row(builder, step, earlier, others)?;
    Ok(())
}

/// Drives the rows of slots, of which each takes in a step the words of the row before it. `step` is 1 where groups move on, and
/// `before` has the words of the group that comes to the first slot.
pub fn emit_words(
    builder: &mut Builder,
    step: NetId,
    before: &[Wire],
    rows: &[Row],
) -> Result<(), NoMemory>
    requires step { HasNet builder.old step 1 }
    requires rows { AreRows builder.old before.now rows.now }
    ensures fills { OnOk result (Fills builder.old builder.new (row_nets rows.now)) }
    ensures moves { OnOk result ((s : Signals) → RunsOn s builder.new.cells → MoveOn s step before.now rows.now) }
{
    let [row, others @ ..] = rows else {
        return Ok(());
    };
    emit_row(builder, step, before, &row.wires)?;
    emit_words(builder, step, &row.wires, others)?;
    Ok(())
}
