//! A loop, closed.
ghost use Rattle.std.specs.Prelude.{◌≡◌, [], ◌∷◌, ◌++◌, IfOk, OnOk};
ghost use Rattle.sp_gates.specs.Grows.{Fills};
ghost use Rattle.sp_gates.specs.Nets.{HasNet};
ghost use Rattle.sp_beat_words.specs.Fits.{row_nets};
ghost use Rattle.sp_stage_members.specs.Members.{starts_in};
ghost use Rattle.sp_stage_members.specs.Placed.{places_of};
ghost use Rattle.sp_loop_circuits.specs.Loops.{LoopFits, IsClosed};

use crate::masks::lane_masks;
use sp_beat_words::emit_words;
use sp_beats::{Beats, emit};
use sp_loop_nets::OpenLoop;
use sp_netlist::{Builder, Ends, NoMemory};
use sp_stage_members::{PlacedSlot, StagePart, stage_members};
use std::alloc::Global;

/// Emits what a loop in beats has round its counters and its stages, behind these: the words that go along with its groups, the
/// members of its slots in their places, and the beats. The nets of its ends are 1 in the first cycles of beats in which the slots
/// get a group.
pub fn close_loop(
    alloc: Global,
    builder: &mut Builder,
    begun: &OpenLoop,
    stages: &[StagePart],
    places: &[PlacedSlot],
) -> Result<Ends, NoMemory>
    requires { LoopFits builder.old begun.now stages.now (places_of places.now) }
    ensures fills { OnOk result (Fills builder.old builder.new (row_nets begun.now.rows.rows.items ++ (starts_in stages.now ++ begun.now.part.step ∷ []))) }
    ensures start { IfOk result (λ ends. ends.start ≡ begun.now.part.start) }
    ensures done { IfOk result (λ ends. HasNet builder.new ends.done 1) }
    ensures closed { IfOk result (λ ends. IsClosed builder.new begun.now stages.now (places_of places.now) ends.nets.items ends.done) }
{
    let masks = lane_masks(alloc, &begun.nets, &begun.rows.rows)?;
    emit_words(
        builder,
        begun.part.step,
        &begun.rows.before,
        &begun.rows.rows,
    )?;
    let slots = stage_members(alloc, builder, places, stages, &masks)?;
    let beats = Beats {
        start: begun.part.start,
        more: begun.nets.more,
        step: begun.part.step,
        slots,
    };
    let ends = emit(alloc, builder, &beats)?;
    Ok(ends)
}
