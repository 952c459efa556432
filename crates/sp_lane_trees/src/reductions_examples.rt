//! Worked loops. The function does nothing: what it ensures was worked out by hand.

ghost use Rattle.std.specs.Prelude.{◌≡◌, [], ◌∷◌};
ghost use Rattle.sp_core.specs.ExampleForms.{stages};
ghost use Rattle.sp_tree.specs.declared.statement.Comb.TheVariants as combiner;
ghost use Rattle.sp_words.specs.Types.{int_type};
ghost use Rattle.sp_lane_cores.specs.LanedMarks.{is_other, reduced};
ghost use Rattle.sp_lane_trees.specs.ReductionsExamples.{counted, summed_stages, kept_stages, summed_core};
ghost use Rattle.sp_lane_groups.specs.InnersAlike.{own_stages};
ghost use Rattle.sp_lane_trees.specs.ReductionsReduction.{LastReduces};

/// The last stage of one combines a word of the loop's own register, that of the other a word from outside, which its other stage
/// doesn't change; the other stage doesn't name the accumulator.
pub fn worked_reduction()
    ensures own { own_stages summed_stages ≡ stages (counted ∷ []) }
    ensures reduces { LastReduces summed_core (2 ∷ []) (is_other (reduced 0 0 1 int_type combiner.Add)) summed_stages }
    ensures keeps { LastReduces summed_core (2 ∷ []) (is_other (reduced 0 0 1 int_type combiner.Add)) kept_stages }
{}
