//! Worked plans. Each function does nothing: what it ensures is which rules the plans keep.

ghost use Rattle.std.specs.Prelude.{◌≡◌, [], ◌∷◌, true, false, pos, Some};
ghost use Rattle.sp_core.specs.ExampleLanes.{dot_product_in_lanes, stores_in_lanes};
ghost use Rattle.sp_core.specs.ExampleLoops.{register_between, streamed, two_loops};
ghost use Rattle.sp_core.specs.ExampleMeets.{histogram_forms, histogram_meets, stores_meets};
ghost use Rattle.sp_core.specs.ExampleForms.{meet};
ghost use Rattle.sp_core.specs.ExampleTransfers.{copied, histogram};
ghost use Rattle.sp_plan.specs.ExamplePlans.{verdicts, all_right, no_forms, plain_mem, banked, in_turns, histogram_plan, two_loops_meets, two_loops_plan, dot_product_forms, dot_product_meets, dot_product_plan, register_meets, register_plan, stores_plan, copied_plan, streamed_plan, looked_up, looked_up_plan};

/// Plans that keep all rules.
pub fn worked_plans()
    ensures histogram { verdicts histogram (histogram_forms (pos 1)) (histogram_meets 1) (histogram_plan (0 ∷ 0 ∷ 2 ∷ 0 ∷ 4 ∷ 5 ∷ []) 4 2) ≡ all_right }
    ensures two_loops { verdicts two_loops no_forms two_loops_meets two_loops_plan ≡ all_right }
    ensures dot_product { verdicts dot_product_in_lanes dot_product_forms dot_product_meets (dot_product_plan 1 3 4 (0 ∷ 1 ∷ 2 ∷ 3 ∷ [])) ≡ all_right }
    ensures register { verdicts register_between no_forms register_meets (register_plan (0 ∷ 0 ∷ []) (0 ∷ 0 ∷ [])) ≡ all_right }
    ensures stores { verdicts (stores_in_lanes 4) no_forms (stores_meets 1) (stores_plan (0 ∷ 0 ∷ 1 ∷ 0 ∷ []) 2) ≡ all_right }
    ensures copied { verdicts (copied 64 16) no_forms (meet 6 11 0 ∷ []) (copied_plan (0 ∷ 1 ∷ []) 2) ≡ all_right }
    ensures copied_in_one_slot { verdicts (copied 64 16) no_forms (meet 6 11 0 ∷ []) (copied_plan (0 ∷ 0 ∷ []) 1) ≡ all_right }
    ensures streamed { verdicts (streamed 2 8) no_forms [] (streamed_plan true) ≡ all_right }
    ensures looked_up { verdicts looked_up no_forms [] (looked_up_plan (in_turns 1 1) (0 ∷ 0 ∷ 2 ∷ 3 ∷ 5 ∷ 6 ∷ []) 2 7) ≡ all_right }
{}

/// Plans of which each breaks one rule or more: of kinds, schemes, groups, times, slots, copies, single copies, duplicates.
pub fn worked_wrong_plans()
    ensures issued_too_often { verdicts histogram (histogram_forms (pos 1)) (histogram_meets 1) (histogram_plan (0 ∷ 0 ∷ 2 ∷ 0 ∷ 4 ∷ 5 ∷ []) 3 2) ≡ true ∷ true ∷ true ∷ false ∷ true ∷ true ∷ true ∷ true ∷ [] }
    ensures used_too_early { verdicts histogram (histogram_forms (pos 1)) (histogram_meets 1) (histogram_plan (0 ∷ 0 ∷ 1 ∷ 0 ∷ 4 ∷ 5 ∷ []) 5 2) ≡ true ∷ true ∷ true ∷ false ∷ true ∷ true ∷ true ∷ true ∷ [] }
    ensures one_duplicate { verdicts histogram (histogram_forms (pos 1)) (histogram_meets 1) (histogram_plan (0 ∷ 0 ∷ 2 ∷ 0 ∷ 4 ∷ 5 ∷ []) 4 1) ≡ true ∷ true ∷ true ∷ true ∷ true ∷ true ∷ true ∷ false ∷ [] }
    ensures one_time_too_few { verdicts histogram (histogram_forms (pos 1)) (histogram_meets 1) (histogram_plan (0 ∷ 0 ∷ 2 ∷ 0 ∷ 4 ∷ []) 4 2) ≡ false ∷ true ∷ true ∷ false ∷ true ∷ true ∷ true ∷ true ∷ [] }
    ensures accumulator_too_early { verdicts dot_product_in_lanes dot_product_forms dot_product_meets (dot_product_plan 1 3 3 (0 ∷ 1 ∷ 2 ∷ 3 ∷ [])) ≡ true ∷ true ∷ true ∷ false ∷ true ∷ true ∷ true ∷ true ∷ [] }
    ensures two_copies { verdicts dot_product_in_lanes dot_product_forms dot_product_meets (dot_product_plan 1 2 4 (0 ∷ 1 ∷ 2 ∷ 3 ∷ [])) ≡ true ∷ true ∷ true ∷ true ∷ true ∷ false ∷ true ∷ true ∷ [] }
    ensures slots_with_a_gap { verdicts dot_product_in_lanes dot_product_forms dot_product_meets (dot_product_plan 1 4 4 (0 ∷ 1 ∷ 3 ∷ 4 ∷ [])) ≡ true ∷ true ∷ true ∷ true ∷ false ∷ false ∷ true ∷ true ∷ [] }
    ensures forms_unknown { verdicts dot_product_in_lanes no_forms dot_product_meets (dot_product_plan 1 3 4 (0 ∷ 1 ∷ 2 ∷ 3 ∷ [])) ≡ true ∷ true ∷ false ∷ true ∷ true ∷ true ∷ true ∷ true ∷ [] }
    ensures stages_parted { verdicts register_between no_forms register_meets (register_plan (0 ∷ 1 ∷ []) (0 ∷ 0 ∷ [])) ≡ true ∷ true ∷ true ∷ true ∷ false ∷ true ∷ true ∷ true ∷ [] }
    ensures two_chains_of_a_lane { verdicts register_between no_forms register_meets (register_plan (0 ∷ 0 ∷ []) (0 ∷ 1 ∷ [])) ≡ true ∷ true ∷ true ∷ true ∷ false ∷ true ∷ true ∷ true ∷ [] }
    ensures stores_at_once { verdicts (stores_in_lanes 4) no_forms (stores_meets 1) (stores_plan (0 ∷ 0 ∷ 1 ∷ 1 ∷ []) 2) ≡ true ∷ true ∷ true ∷ true ∷ false ∷ true ∷ true ∷ true ∷ [] }
    ensures one_copy_of_two { verdicts (stores_in_lanes 4) no_forms (stores_meets 1) (stores_plan (0 ∷ 0 ∷ 1 ∷ 0 ∷ []) 1) ≡ true ∷ true ∷ true ∷ true ∷ true ∷ false ∷ true ∷ true ∷ [] }
    ensures pipelined_in_a_stream { verdicts (streamed 2 8) no_forms [] (streamed_plan false) ≡ true ∷ true ∷ true ∷ false ∷ true ∷ true ∷ true ∷ true ∷ [] }
    ensures serial_at_one_time { verdicts looked_up no_forms [] (looked_up_plan (in_turns 1 1) (0 ∷ 0 ∷ 2 ∷ 2 ∷ 4 ∷ 5 ∷ []) 2 6) ≡ true ∷ true ∷ true ∷ false ∷ true ∷ true ∷ true ∷ true ∷ [] }
    ensures serial_past_an_interval { verdicts looked_up no_forms [] (looked_up_plan (in_turns 1 1) (0 ∷ 0 ∷ 2 ∷ 3 ∷ 5 ∷ 6 ∷ []) 1 7) ≡ true ∷ true ∷ true ∷ false ∷ true ∷ true ∷ true ∷ true ∷ [] }
    ensures no_group { verdicts looked_up no_forms [] (looked_up_plan (banked 1 1 (0 ∷ []) 1 1) (0 ∷ 0 ∷ 2 ∷ 2 ∷ 4 ∷ 5 ∷ []) 1 6) ≡ true ∷ true ∷ false ∷ true ∷ true ∷ true ∷ true ∷ true ∷ [] }
    ensures a_register_in_banks { verdicts register_between no_forms register_meets (record { mems = banked 1 1 (0 ∷ []) 1 1 ∷ banked 1 1 (0 ∷ []) 1 1 ∷ []; nodes = (register_plan (0 ∷ 0 ∷ []) (0 ∷ 0 ∷ [])).nodes }) ≡ true ∷ false ∷ true ∷ true ∷ true ∷ true ∷ true ∷ true ∷ [] }
{}
