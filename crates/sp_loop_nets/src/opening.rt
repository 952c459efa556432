//! The bounds, the counters and the rows of a loop.
ghost use Rattle.std.specs.Prelude.{◌≡◌, ◌+◌, ◌<◌, ◌^◌, ◌∷◌, ◌++◌, map, length, IfOk};
ghost use Rattle.sp_netlist.specs.Signals.{Signals};
ghost use Rattle.sp_gates.specs.Nets.{HasNet, Awaits};
ghost use Rattle.sp_gates.specs.Runs.{RunsOn};
ghost use Rattle.sp_core.specs.Numbering.{counters_size};
ghost use Rattle.sp_core.specs.Plain.{plain_counter};
ghost use Rattle.sp_counters.specs.Counting.{CountsGroups};
ghost use Rattle.sp_counters.specs.Fits.{AreCounted};
ghost use Rattle.sp_beat_words.specs.Fits.{AreRows, row_nets};
ghost use Rattle.sp_part_runs.specs.WordsLaws.{AreAsLong};
ghost use Rattle.sp_node_runs.specs.BodiesGiven.{values_of};
ghost use Rattle.sp_node_runs.specs.BodiesRows.{wires_of};
ghost use Rattle.sp_op_nets.specs.Acted.{answers_in};
ghost use Rattle.sp_op_nets.specs.Reserved.{Reserves};
ghost use Rattle.sp_bound_nets.specs.Bounds.{AreCountersRight};
ghost use Rattle.sp_loop_nets.specs.Fits.{counted_wires};
ghost use Rattle.sp_loop_nets.specs.Open.{HasBounds, LanesFit};

use crate::rows::{Rows, open_rows};
use sp_bound_nets::emit_bounds;
use sp_core::CoreCounter;
use sp_counters::{Counted, Counters, emit};
use sp_gates::reserve;
use sp_netlist::{Builder, NetId, NoMemory};
use sp_op_nets::{ActedList, AroundNets};
use std::alloc::Global;

/// A loop whose stages are to be emitted: its counters, whose step is to be driven, their nets, the rows of wires that go along with
/// groups, and the operations of the bounds.
#[derive(Debug, Drop)]
pub struct OpenLoop {
    pub part: Counters,
    pub nets: Counted,
    pub rows: Rows,
    pub acted: Vec<ActedList>,
}

/// Emits the bounds and the counters of a loop in beats, and promises its step and for each of so many slots a row of wires. The
/// step and the rows are to be driven behind the loop's stages. `number` is that of the first operation of the bounds.
pub fn open_loop(
    alloc: Global,
    builder: &mut Builder,
    counters: &[CoreCounter],
    number: u32,
    around: &[AroundNets],
    start: NetId,
    slots: usize,
) -> Result<OpenLoop, NoMemory>
    requires start { HasNet builder.old start 1 }
    requires right { AreCountersRight builder.old around.now (map plain_counter counters.now) }
    requires numbers { number + counters_size (map plain_counter counters.now) < 2 ^ 32 }
    ensures start { IfOk result (λ begun. begun.part.start ≡ start) }
    ensures step { IfOk result (λ begun. Awaits builder.new begun.part.step 1) }
    ensures counted { IfOk result (λ begun. AreCounted builder.new begun.part begun.nets) }
    ensures lanes { IfOk result (λ begun. LanesFit (map plain_counter counters.now) begun.part begun.nets) }
    ensures counts { IfOk result (λ begun. (s : Signals) → RunsOn s builder.new.cells → CountsGroups s begun.part begun.nets) }
    ensures bounds { IfOk result (λ begun. HasBounds builder.old builder.new around.now number (map plain_counter counters.now) begun.part.counters.items begun.acted.items) }
    ensures wires { IfOk result (λ begun. begun.rows.before.items ≡ counted_wires begun.nets) }
    ensures first { IfOk result (λ begun. wires_of begun.rows.before.items ≡ values_of begun.nets.counters.items ++ begun.nets.masks.items) }
    ensures rows { IfOk result (λ begun. AreRows builder.new begun.rows.before.items begun.rows.rows.items) }
    ensures long { IfOk result (λ begun. AreAsLong (length begun.rows.before.items) begun.rows.rows.items) }
    ensures each { IfOk result (λ begun. length begun.rows.rows.items ≡ slots) }
    ensures reserves { IfOk result (λ begun. Reserves builder.old builder.new (begun.part.step ∷ (answers_in begun.acted.items ++ row_nets begun.rows.rows.items))) }
{
    let step = reserve(builder, 1)?;
    let bounds = emit_bounds(alloc, builder, counters, number, around)?;
    let part = Counters {
        start,
        step,
        counters: bounds.counts,
    };
    let nets = emit(alloc, builder, &part)?;
    let rows = open_rows(alloc, builder, &nets, slots)?;
    Ok(OpenLoop {
        part,
        nets,
        rows,
        acted: bounds.acted,
    })
}
