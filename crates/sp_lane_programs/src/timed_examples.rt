//! Worked programs. The function does nothing: what it ensures was worked out by hand.

ghost use Rattle.sp_tree.specs.ExampleStreams.{widely_copied};
ghost use Rattle.sp_tree.specs.ExampleTransfers.{mixed_stages};
ghost use Rattle.sp_sugar.specs.ExamplePrograms.{streamed, streamed_twice, early_slices};
ghost use Rattle.sp_lane_programs.specs.Timed.{BodyTimed};

/// A program with a load of one lane and a loop, and one whose `Stream` block isn't proper; against one whose block is proper, one
/// with a gather, and one with a load in four lanes.
pub fn worked_programs()
    ensures mixed { BodyTimed mixed_stages.mems mixed_stages.body }
    ensures in_turn { BodyTimed streamed_twice.mems streamed_twice.body }
    ensures streamed { BodyTimed streamed.mems streamed.body → ⊥ }
    ensures gathered { BodyTimed early_slices.mems early_slices.body → ⊥ }
    ensures wide { BodyTimed widely_copied.mems widely_copied.body → ⊥ }
{}
