//! Elements of a memory. The function does nothing: what it ensures was worked out by hand.

ghost use Rattle.sp_core.specs.Events.{reads, turns, writes};
ghost use Rattle.sp_core.specs.ExampleTransfers.{copied};
ghost use Rattle.sp_chosen_runs.specs.InsideExamples.{at_indices};
ghost use Rattle.sp_chosen_runs.specs.InsideLaws.{IsInside};
ghost use Rattle.std.specs.Prelude.{[], ◌∷◌};

/// A memory of two words has elements 0 and 1, at one index each; nothing is asked of what is done to no element.
pub fn worked_elements()
    ensures last { IsInside (copied 4 2) (at_indices (1 ∷ []) (reads 7)) }
    ensures past { IsInside (copied 4 2) (at_indices (2 ∷ []) (writes 7)) → ⊥ }
    ensures no_index { IsInside (copied 4 2) (at_indices [] (reads 7)) → ⊥ }
    ensures no_element { IsInside (copied 4 2) (at_indices [] turns) }
{}
