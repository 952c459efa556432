//! Worked timelines. Each function does nothing: what it ensures are cycles that were worked out by hand.

ghost use Rattle.sp_core.specs.Elements.{numbers_below};
ghost use Rattle.sp_core.specs.ExampleForms.{input};
ghost use Rattle.sp_core.specs.ExampleLanes.{stores_in_lanes};
ghost use Rattle.sp_core.specs.ExampleLoops.{counting_down, sum_core, two_loops};
ghost use Rattle.sp_core.specs.ExampleTransfers.{copied, copied_at_once};
ghost use Rattle.sp_core.specs.Meaning.{meaning};
ghost use Rattle.sp_core.specs.Scope.{in_lanes};
ghost use Rattle.sp_machine.specs.Examples.{always, asks_at, at, chosen, chosen_plan, copied_at_once_plan, copied_plan, counting_plan, idling, idling_plan, shown_in, stores_plan, sum_plan, took_in, two_loops_plan};
ghost use Rattle.sp_machine.specs.Timeline.{inner_took};
ghost use Rattle.sp_machine.specs.Transfers.{look_cycle, transfer_took, word_cycle};
ghost use Rattle.std.specs.Prelude.{[], ◌≡◌, ◌∷◌, Some, replicate};

/// How long parts take by themselves.
pub fn worked_parts()
    ensures no_group { inner_took 0 4 6 ≡ 2 }
    ensures one_group { inner_took 1 4 6 ≡ 8 }
    ensures groups { inner_took 8 4 6 ≡ 36 }
    ensures first_word { word_cycle (λ ask. 5) 0 ≡ 7 }
    ensures last_word_of_a_burst { word_cycle (λ ask. 5) 15 ≡ 22 }
    ensures first_word_of_the_next_burst { word_cycle (λ ask. 5) 16 ≡ 28 }
    ensures looks_at_its_start { look_cycle (λ ask. 5) 0 ≡ 0 }
    ensures looks_when_it_asks { look_cycle (λ ask. 5) 1 ≡ 1 }
    ensures looks_two_words_ahead { look_cycle (λ ask. 5) 18 ≡ 28 }
    ensures transfer_of_no_word { transfer_took (λ ask. 5) 0 ≡ 3 }
    ensures transfer_of_a_burst { transfer_took (λ ask. 5) 16 ≡ 24 }
    ensures transfer_of_two_bursts { transfer_took (λ ask. 5) 17 ≡ 30 }
{}

/// In which cycle each memory is touched, and in which copy.
pub fn worked_timelines()
    ensures inner_body { shown_in sum_core sum_plan (always 0) (meaning in_lanes 0 sum_core (input (4 ∷ []) [])) ≡ Some (at 1 0 0 ∷ at 3 1 0 ∷ []) }
    ensures machine { shown_in counting_down counting_plan (always 0) (meaning in_lanes 1 counting_down (input (1 ∷ []) [])) ≡ Some (at 1 2 0 ∷ at 4 0 0 ∷ at 5 3 0 ∷ at 7 3 0 ∷ at 11 2 0 ∷ at 11 3 0 ∷ at 13 2 0 ∷ at 16 3 0 ∷ at 18 3 0 ∷ at 20 3 0 ∷ at 26 2 0 ∷ at 27 1 0 ∷ []) }
    ensures two_copies { shown_in (copied 4 2) (copied_plan (0 ∷ 1 ∷ []) 2) (always 0) (meaning in_lanes 0 (copied 4 2) (input [] (numbers_below 4 ∷ replicate 4 9 ∷ []))) ≡ Some (
        at 3 0 0 ∷ asks_at 5 ∷ at 6 1 0 ∷ at 7 0 0 ∷ at 7 1 0 ∷ at 8 0 0 ∷ asks_at 11 ∷ at 10 0 0 ∷ at 12 2 0 ∷ at 11 0 0 ∷ at 13 2 0 ∷
        at 9 0 1 ∷ asks_at 11 ∷ at 12 1 0 ∷ at 13 0 1 ∷ at 13 1 0 ∷ at 14 0 1 ∷ asks_at 17 ∷ at 16 0 1 ∷ at 18 2 0 ∷ at 17 0 1 ∷ at 19 2 0 ∷ []) }
    ensures one_copy { shown_in (copied 2 2) (copied_plan (0 ∷ 0 ∷ []) 1) (always 3) (meaning in_lanes 0 (copied 2 2) (input [] (numbers_below 2 ∷ replicate 2 9 ∷ []))) ≡ Some (
        at 3 0 0 ∷ asks_at 5 ∷ at 9 1 0 ∷ at 10 0 0 ∷ at 10 1 0 ∷ at 11 0 0 ∷ asks_at 13 ∷ at 12 0 0 ∷ at 17 2 0 ∷ at 13 0 0 ∷ at 18 2 0 ∷ []) }
    ensures block_taken { shown_in chosen chosen_plan (always 0) (meaning in_lanes 0 chosen (input (3 ∷ []) [])) ≡ Some (at 4 0 0 ∷ at 8 1 0 ∷ []) }
    ensures block_left_out { shown_in chosen chosen_plan (always 0) (meaning in_lanes 0 chosen (input (2 ∷ []) [])) ≡ Some (at 4 0 0 ∷ []) }
    ensures groups_at_once { shown_in idling idling_plan (always 0) (meaning in_lanes 0 idling (input [] [])) ≡ Some (at 1 0 0 ∷ at 1 0 0 ∷ at 1 0 0 ∷ []) }
{}

/// How many cycles runs take: two fewer than they cost, where no transfer waits less than the greatest delay.
pub fn worked_lengths()
    ensures sum { took_in sum_core sum_plan (always 0) (meaning in_lanes 0 sum_core (input (4 ∷ []) [])) ≡ Some 5 }
    ensures one_turn { took_in counting_down counting_plan (always 0) (meaning in_lanes 1 counting_down (input (1 ∷ []) [])) ≡ Some 30 }
    ensures five_turns { took_in counting_down counting_plan (always 0) (meaning in_lanes 5 counting_down (input (5 ∷ []) [])) ≡ Some 82 }
    ensures two_loops { took_in two_loops two_loops_plan (always 0) (meaning in_lanes 0 two_loops (input [] [])) ≡ Some 217 }
    ensures copied { took_in (copied 64 16) (copied_plan (0 ∷ 1 ∷ []) 2) (always 0) (meaning in_lanes 0 (copied 64 16) (input [] (numbers_below 64 ∷ replicate 64 0 ∷ []))) ≡ Some 105 }
    ensures copied_with_delays { took_in (copied 64 16) (copied_plan (0 ∷ 1 ∷ []) 2) (always 1000) (meaning in_lanes 0 (copied 64 16) (input [] (numbers_below 64 ∷ replicate 64 0 ∷ []))) ≡ Some 5105 }
    ensures copied_in_one_slot { took_in (copied 64 16) (copied_plan (0 ∷ 0 ∷ []) 1) (always 0) (meaning in_lanes 0 (copied 64 16) (input [] (numbers_below 64 ∷ replicate 64 0 ∷ []))) ≡ Some 161 }
    ensures bursts { took_in (copied_at_once 64) copied_at_once_plan (always 10) (meaning in_lanes 0 (copied_at_once 64) (input [] (numbers_below 64 ∷ replicate 64 0 ∷ []))) ≡ Some 218 }
    ensures masked_lane { took_in (stores_in_lanes 3) stores_plan (always 0) (meaning in_lanes 0 (stores_in_lanes 3) (input [] (replicate 5 9 ∷ []))) ≡ Some 29 }
    ensures block_taken { took_in chosen chosen_plan (always 0) (meaning in_lanes 0 chosen (input (3 ∷ []) [])) ≡ Some 12 }
    ensures block_left_out { took_in chosen chosen_plan (always 0) (meaning in_lanes 0 chosen (input (2 ∷ []) [])) ≡ Some 11 }
    ensures groups_at_once { took_in idling idling_plan (always 0) (meaning in_lanes 0 idling (input [] [])) ≡ Some 2 }
{}
