//! Worked combinations of elements. The function does nothing: what it ensures was worked out by hand.

ghost use Rattle.std.specs.Prelude.{◌≡◌, true, false, Some, None, [], ◌∷◌};
ghost use Rattle.sp_tree.specs.declared.statement.Comb.TheVariants as combiner;
ghost use Rattle.sp_words.specs.Types.{int_type};
ghost use Rattle.sp_lane_cores.specs.LanedMarks.{element, is_other};
ghost use Rattle.sp_lane_trees.specs.ElementsCells.{by_lanes, by_elements};
ghost use Rattle.sp_lane_trees.specs.ElementsExamples.{lanes, sum, added_stages, added_core};
ghost use Rattle.sp_lane_trees.specs.ElementsReduction.{LastElements};

/// Words are added to what cells held, or where none did the first lane's take their place, lane by lane and element by element; and
/// the last stage of a loop combines the two elements of a memory of its own.
pub fn worked_elements()
    ensures begun { by_lanes sum true (1 ∷ 0 ∷ []) lanes (Some 300 ∷ Some 100 ∷ []) ≡ Some 322 ∷ Some 111 ∷ [] }
    ensures first { by_lanes sum false (1 ∷ 0 ∷ []) lanes (None ∷ Some 100 ∷ []) ≡ Some 22 ∷ Some 11 ∷ [] }
    ensures begun_too { by_elements sum true (1 ∷ 0 ∷ []) lanes (Some 300 ∷ Some 100 ∷ []) ≡ Some 322 ∷ Some 111 ∷ [] }
    ensures first_too { by_elements sum false (1 ∷ 0 ∷ []) lanes (None ∷ Some 100 ∷ []) ≡ Some 22 ∷ Some 11 ∷ [] }
    ensures combines { LastElements added_core (2 ∷ []) (is_other (element [] 1 1 (2 ∷ []) 0 1 int_type combiner.Add)) added_stages }
{}
