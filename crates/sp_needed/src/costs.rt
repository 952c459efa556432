//! What worked runs cost by the plans of their cores. The function does nothing: what it ensures was worked out by hand.

ghost use Rattle.std.specs.Prelude.{◌≡◌, [], ◌∷◌, replicate, Some};
ghost use Rattle.sp_core.specs.Cost.{inner_timing, outer_timing, no_timing};
ghost use Rattle.sp_core.specs.Elements.{numbers_below};
ghost use Rattle.sp_core.specs.ExampleForms.{input, cost_in};
ghost use Rattle.sp_core.specs.ExampleLanes.{dot_product_in_lanes};
ghost use Rattle.sp_core.specs.ExampleTransfers.{histogram, line_filter};
ghost use Rattle.sp_core.specs.Meaning.{meaning};
ghost use Rattle.sp_core.specs.Scope.{in_lanes};

/// The dot product: seven beats of loads of 19, the four groups of its inner loop with 25 and a combination with 7. The
/// histogram: a load of 11, loops of 6 and 36, a store of 7. The filter of a line buffer, which loads and sums in one slot:
/// two rows with 8 and 7, and two with 8 and 145.
pub fn worked_costs()
    ensures dot_product { cost_in dot_product_in_lanes (outer_timing (0 ∷ 1 ∷ []) (0 ∷ 0 ∷ []) ∷ outer_timing (0 ∷ 1 ∷ 2 ∷ 3 ∷ []) (0 ∷ 0 ∷ 0 ∷ 0 ∷ []) ∷ no_timing ∷ no_timing ∷ inner_timing 4 11 ∷ inner_timing 1 5 ∷ inner_timing 1 2 ∷ []) 0 (meaning in_lanes 0 dot_product_in_lanes (input [] (numbers_below 64 ∷ replicate 64 1 ∷ []))) ≡ Some 164 }
    ensures histogram { cost_in histogram (outer_timing (0 ∷ 1 ∷ 2 ∷ 3 ∷ []) (0 ∷ 0 ∷ 0 ∷ 0 ∷ []) ∷ no_timing ∷ inner_timing 1 1 ∷ inner_timing 4 6 ∷ no_timing ∷ []) 0 (meaning in_lanes 0 histogram (input [] ((0 ∷ 1 ∷ 1 ∷ 3 ∷ 1 ∷ 0 ∷ 2 ∷ 1 ∷ []) ∷ replicate 4 0 ∷ []))) ≡ Some 68 }
    ensures line_filter { cost_in (line_filter 5) (outer_timing (0 ∷ []) (0 ∷ []) ∷ outer_timing (0 ∷ 0 ∷ []) (0 ∷ 0 ∷ []) ∷ no_timing ∷ no_timing ∷ outer_timing (0 ∷ 1 ∷ []) (0 ∷ 0 ∷ []) ∷ outer_timing (0 ∷ 1 ∷ []) (0 ∷ 0 ∷ []) ∷ inner_timing 4 6 ∷ inner_timing 1 2 ∷ no_timing ∷ inner_timing 1 0 ∷ []) 0 (meaning in_lanes 0 (line_filter 5) (input [] (numbers_below 20 ∷ replicate 6 0 ∷ []))) ≡ Some 347 }
{}
