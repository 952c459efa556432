//! Runs by plans that are right, and by ones that break a rule.

ghost use Rattle.sp_core.specs.Cost.{inner_timing, outer_timing};
ghost use Rattle.sp_core.specs.ExampleForms.{cost_in, input, meet, met_in};
ghost use Rattle.sp_core.specs.Latency.{limit};
ghost use Rattle.sp_core.specs.ExampleLoops.{register_between};
ghost use Rattle.sp_core.specs.ExampleTransfers.{copied};
ghost use Rattle.sp_core.specs.Invariant.{wrong_place};
ghost use Rattle.sp_core.specs.Elements.{numbers_below};
ghost use Rattle.sp_core.specs.Meaning.{meaning};
ghost use Rattle.sp_core.specs.Scope.{in_lanes};
ghost use Rattle.sp_machine.specs.Examples.{always, at};
ghost use Rattle.sp_needed.specs.Cores.{across_lanes, across_lanes_meets, across_lanes_plan, added_up, added_up_meets, added_up_plan, between_plan, distant, distant_meets, distant_plan, paired, paired_forms, paired_meets, paired_plan, passed_on, passed_on_meets, passed_on_plan, read_twice, read_twice_meets, read_twice_plan, waits_at};
ghost use Rattle.sp_needed.specs.Seen.{missed_in, shared_in};
ghost use Rattle.sp_plan.specs.ExamplePlans.{all_right, banked, copied_plan, no_forms, register_meets, verdicts};
ghost use Rattle.std.specs.Prelude.{[], ◌≡◌, ◌∷◌, None, Some, false, replicate, true};

/// Each rule by which reads find their words: the order of two accesses, the interval, stages that are held in one slot, chains,
/// copies. By a plan that is right no read misses its word; by one that breaks the rule alone these do.
pub fn rules_keep_words()
    ensures order { missed_in passed_on (passed_on_plan (0 ∷ 1 ∷ 2 ∷ 3 ∷ []) 4) (always 0) (input (7 ∷ []) []) (meaning in_lanes 0 passed_on (input (7 ∷ []) [])) ≡ Some [] }
    ensures order_broken { missed_in passed_on (passed_on_plan (0 ∷ 1 ∷ 1 ∷ 2 ∷ []) 3) (always 0) (input (7 ∷ []) []) (meaning in_lanes 0 passed_on (input (7 ∷ []) [])) ≡ Some (at 4 1 0 ∷ []) }
    ensures interval { missed_in added_up (added_up_plan 3) (always 0) (input (7 ∷ []) []) (meaning in_lanes 0 added_up (input (7 ∷ []) [])) ≡ Some [] }
    ensures interval_broken { missed_in added_up (added_up_plan 2) (always 0) (input (7 ∷ []) []) (meaning in_lanes 0 added_up (input (7 ∷ []) [])) ≡ Some (at 5 1 0 ∷ at 7 1 0 ∷ []) }
    ensures held_stages { missed_in register_between (between_plan (0 ∷ 0 ∷ []) (0 ∷ 0 ∷ []) (0 ∷ 1 ∷ 0 ∷ 2 ∷ 3 ∷ []) 4) (always 0) (input [] (replicate 4 0 ∷ [])) (meaning in_lanes 0 register_between (input [] (replicate 4 0 ∷ []))) ≡ Some [] }
    ensures held_stages_broken { missed_in register_between (between_plan (0 ∷ 1 ∷ []) (0 ∷ 0 ∷ []) (0 ∷ 1 ∷ 0 ∷ 2 ∷ 3 ∷ []) 4) (always 0) (input [] (replicate 4 0 ∷ [])) (meaning in_lanes 0 register_between (input [] (replicate 4 0 ∷ []))) ≡ Some (at 10 0 0 ∷ at 17 0 0 ∷ at 24 0 0 ∷ []) }
    ensures chain { missed_in register_between (between_plan (0 ∷ 0 ∷ []) (0 ∷ 0 ∷ []) (0 ∷ 0 ∷ 0 ∷ 1 ∷ 2 ∷ []) 3) (always 0) (input [] (replicate 4 0 ∷ [])) (meaning in_lanes 0 register_between (input [] (replicate 4 0 ∷ []))) ≡ Some [] }
    ensures chain_broken { missed_in register_between (between_plan (0 ∷ 0 ∷ []) (0 ∷ 1 ∷ []) (0 ∷ 0 ∷ 0 ∷ 1 ∷ 2 ∷ []) 3) (always 0) (input [] (replicate 4 0 ∷ [])) (meaning in_lanes 0 register_between (input [] (replicate 4 0 ∷ []))) ≡ Some (at 11 0 0 ∷ at 17 0 0 ∷ at 23 0 0 ∷ []) }
    ensures copies { missed_in (copied 8 4) (copied_plan (0 ∷ 1 ∷ []) 2) (waits_at 3 5) (input [] (numbers_below 8 ∷ replicate 8 0 ∷ [])) (meaning in_lanes 0 (copied 8 4) (input [] (numbers_below 8 ∷ replicate 8 0 ∷ []))) ≡ Some [] }
    ensures copies_broken { missed_in (copied 8 4) (copied_plan (0 ∷ 1 ∷ []) 1) (waits_at 3 5) (input [] (numbers_below 8 ∷ replicate 8 0 ∷ [])) (meaning in_lanes 0 (copied 8 4) (input [] (numbers_below 8 ∷ replicate 8 0 ∷ []))) ≡ Some (at 19 0 0 ∷ at 20 0 0 ∷ []) }
{}

/// Each rule by which accesses have ports of their own: the span of a serial memory in an interval, duplicates, schemes. By a plan
/// that is right no two share one; by one that breaks the rule alone these do, with a later one.
pub fn rules_keep_ports_apart()
    ensures span { shared_in distant (distant_plan (0 ∷ 0 ∷ 0 ∷ 0 ∷ 1 ∷ 3 ∷ 4 ∷ []) 2 5) (always 0) (meaning in_lanes 0 distant (input [] (numbers_below 4 ∷ []))) ≡ Some [] }
    ensures span_broken { shared_in distant (distant_plan (0 ∷ 0 ∷ 0 ∷ 0 ∷ 1 ∷ 3 ∷ 4 ∷ []) 1 5) (always 0) (meaning in_lanes 0 distant (input [] (numbers_below 4 ∷ []))) ≡ Some (at 12 0 0 ∷ []) }
    ensures duplicates { shared_in read_twice (read_twice_plan 2) (always 0) (meaning in_lanes 0 read_twice (input [] (numbers_below 4 ∷ []))) ≡ Some [] }
    ensures duplicates_broken { shared_in read_twice (read_twice_plan 1) (always 0) (meaning in_lanes 0 read_twice (input [] (numbers_below 4 ∷ []))) ≡ Some (at 19 0 0 ∷ at 25 0 0 ∷ []) }
    ensures scheme { shared_in paired (paired_plan (banked 2 1 (1 ∷ []) 1 1)) (always 0) (meaning in_lanes 0 paired (input [] (numbers_below 4 ∷ []))) ≡ Some [] }
    ensures scheme_broken { shared_in paired (paired_plan (banked 1 1 (0 ∷ []) 1 1)) (always 0) (meaning in_lanes 0 paired (input [] (numbers_below 4 ∷ []))) ≡ Some (at 11 0 0 ∷ at 12 0 0 ∷ []) }
{}

/// The plans that break a rule keep all others: of kinds, schemes, groups, times, slots, copies, single copies, duplicates. A
/// scheme that doesn't keep apart what it should is no verdict of these.
pub fn wrong_plans_break_one_rule()
    ensures order { verdicts passed_on no_forms passed_on_meets (passed_on_plan (0 ∷ 1 ∷ 2 ∷ 3 ∷ []) 4) ≡ all_right }
    ensures order_broken { verdicts passed_on no_forms passed_on_meets (passed_on_plan (0 ∷ 1 ∷ 1 ∷ 2 ∷ []) 3) ≡ true ∷ true ∷ true ∷ false ∷ true ∷ true ∷ true ∷ true ∷ [] }
    ensures interval { verdicts added_up no_forms added_up_meets (added_up_plan 3) ≡ all_right }
    ensures interval_broken { verdicts added_up no_forms added_up_meets (added_up_plan 2) ≡ true ∷ true ∷ true ∷ false ∷ true ∷ true ∷ true ∷ true ∷ [] }
    ensures held_stages { verdicts register_between no_forms register_meets (between_plan (0 ∷ 0 ∷ []) (0 ∷ 0 ∷ []) (0 ∷ 1 ∷ 0 ∷ 2 ∷ 3 ∷ []) 4) ≡ all_right }
    ensures held_stages_broken { verdicts register_between no_forms register_meets (between_plan (0 ∷ 1 ∷ []) (0 ∷ 0 ∷ []) (0 ∷ 1 ∷ 0 ∷ 2 ∷ 3 ∷ []) 4) ≡ true ∷ true ∷ true ∷ true ∷ false ∷ true ∷ true ∷ true ∷ [] }
    ensures chain { verdicts register_between no_forms register_meets (between_plan (0 ∷ 0 ∷ []) (0 ∷ 0 ∷ []) (0 ∷ 0 ∷ 0 ∷ 1 ∷ 2 ∷ []) 3) ≡ all_right }
    ensures chain_broken { verdicts register_between no_forms register_meets (between_plan (0 ∷ 0 ∷ []) (0 ∷ 1 ∷ []) (0 ∷ 0 ∷ 0 ∷ 1 ∷ 2 ∷ []) 3) ≡ true ∷ true ∷ true ∷ true ∷ false ∷ true ∷ true ∷ true ∷ [] }
    ensures copies { verdicts (copied 8 4) no_forms (meet 6 11 0 ∷ []) (copied_plan (0 ∷ 1 ∷ []) 2) ≡ all_right }
    ensures copies_broken { verdicts (copied 8 4) no_forms (meet 6 11 0 ∷ []) (copied_plan (0 ∷ 1 ∷ []) 1) ≡ true ∷ true ∷ true ∷ true ∷ true ∷ false ∷ true ∷ true ∷ [] }
    ensures span { verdicts distant no_forms distant_meets (distant_plan (0 ∷ 0 ∷ 0 ∷ 0 ∷ 1 ∷ 3 ∷ 4 ∷ []) 2 5) ≡ all_right }
    ensures span_broken { verdicts distant no_forms distant_meets (distant_plan (0 ∷ 0 ∷ 0 ∷ 0 ∷ 1 ∷ 3 ∷ 4 ∷ []) 1 5) ≡ true ∷ true ∷ true ∷ false ∷ true ∷ true ∷ true ∷ true ∷ [] }
    ensures duplicates { verdicts read_twice no_forms read_twice_meets (read_twice_plan 2) ≡ all_right }
    ensures duplicates_broken { verdicts read_twice no_forms read_twice_meets (read_twice_plan 1) ≡ true ∷ true ∷ true ∷ true ∷ true ∷ true ∷ true ∷ false ∷ [] }
    ensures scheme { verdicts paired paired_forms paired_meets (paired_plan (banked 2 1 (1 ∷ []) 1 1)) ≡ all_right }
    ensures scheme_broken { verdicts paired paired_forms paired_meets (paired_plan (banked 1 1 (0 ∷ []) 1 1)) ≡ all_right }
{}

/// A valid plan whose times are late passes the limit of a program of four turns, as `r := x; y := r` with its declaration is.
pub fn late_plans_pass_the_limit()
    ensures valid { verdicts passed_on no_forms passed_on_meets (passed_on_plan (1000 ∷ 1001 ∷ 1002 ∷ 1003 ∷ []) 1004) ≡ all_right }
    ensures cost { cost_in passed_on (outer_timing (0 ∷ []) (0 ∷ []) ∷ inner_timing 1 1004 ∷ []) 0 (meaning in_lanes 0 passed_on (input (7 ∷ []) [])) ≡ Some 1011 }
    ensures most { limit 4 0 passed_on ≡ 680 }
{}

/// A core that keeps all rules of cores, and yet shares a loop's register between lanes, the later stage of one before the earlier
/// stage of the next: by a valid plan the read comes in a slot before that of the write, and misses its word. No program has such
/// a core in lanes.
pub fn lanes_that_share_miss_words()
    ensures core { wrong_place across_lanes ≡ None }
    ensures met { met_in across_lanes across_lanes_meets (meaning in_lanes 0 across_lanes (input [] [])) ≡ Some true }
    ensures valid { verdicts across_lanes no_forms across_lanes_meets across_lanes_plan ≡ all_right }
    ensures missed { missed_in across_lanes across_lanes_plan (always 0) (input [] []) (meaning in_lanes 0 across_lanes (input [] [])) ≡ Some (at 7 1 0 ∷ []) }
{}
