//! Worked pairs of accesses. Each function does nothing: what it ensures was worked out by hand.

ghost use Rattle.std.specs.Prelude.{◌≡◌, [], ◌∷◌, true, false, pos, negsuc, Some, None};
ghost use Rattle.sp_deps.specs.declared.class.Class.TheVariants.{Earlier};
ghost use Rattle.sp_deps.specs.Classes.{may_meet};
ghost use Rattle.sp_deps.specs.Distances.{all_common};
ghost use Rattle.sp_deps.specs.Examples.{form, with_symbol, between, somewhere, meet_in, meet_in_each};

/// Whether two accesses may meet in one group, and one to five steps of the last counter apart.
pub fn worked_steps()
    // With i from 1 to 7 in four lanes: what lane l writes at s(i + l) lane m reads at s(i + m - 1).
    ensures written_in_lane_0_read_in_lane_1 { meet_in_each (between (pos 1) (pos 7) 1 4 ∷ []) (form (pos 1 ∷ []) (pos 0) ∷ []) (form (pos 1 ∷ []) (pos 0) ∷ []) ≡ true ∷ false ∷ false ∷ false ∷ false ∷ false ∷ [] }
    ensures written_in_lane_3_read_in_lane_0 { meet_in_each (between (pos 1) (pos 7) 1 4 ∷ []) (form (pos 1 ∷ []) (pos 3) ∷ []) (form (pos 1 ∷ []) (negsuc 0) ∷ []) ≡ false ∷ true ∷ false ∷ false ∷ false ∷ false ∷ [] }
    ensures written_in_lane_1_read_in_lane_0 { meet_in_each (between (pos 1) (pos 7) 1 4 ∷ []) (form (pos 1 ∷ []) (pos 1) ∷ []) (form (pos 1 ∷ []) (negsuc 0) ∷ []) ≡ false ∷ false ∷ false ∷ false ∷ false ∷ false ∷ [] }
    // s(i) = s(i - 4): a lane reads what it wrote a group before.
    ensures four_back { meet_in_each (between (pos 4) (pos 15) 1 4 ∷ []) (form (pos 1 ∷ []) (pos 2) ∷ []) (form (pos 1 ∷ []) (negsuc 1) ∷ []) ≡ false ∷ true ∷ false ∷ false ∷ false ∷ false ∷ [] }
    // s(i) and s(i + 2), and s(i) and s(i + 4): the later one is ahead.
    ensures two_ahead { meet_in_each (between (pos 0) (pos 5) 1 1 ∷ []) (form (pos 1 ∷ []) (pos 0) ∷ []) (form (pos 1 ∷ []) (pos 2) ∷ []) ≡ false ∷ false ∷ false ∷ false ∷ false ∷ false ∷ [] }
    ensures four_behind { meet_in_each (between (pos 0) (pos 3) 1 1 ∷ []) (form (pos 1 ∷ []) (pos 4) ∷ []) (form (pos 1 ∷ []) (pos 0) ∷ []) ≡ false ∷ false ∷ false ∷ false ∷ true ∷ false ∷ [] }
    // o(i + l) and o(i + m) with 4 lanes: two lanes never meet.
    ensures other_lane { meet_in_each (between (pos 0) (pos 7) 1 4 ∷ []) (form (pos 1 ∷ []) (pos 1) ∷ []) (form (pos 1 ∷ []) (pos 3) ∷ []) ≡ false ∷ false ∷ false ∷ false ∷ false ∷ false ∷ [] }
    // An element that doesn't hang on the counter: every group.
    ensures one_element { meet_in_each (between (pos 0) (pos 7) 1 1 ∷ []) (form (pos 0 ∷ []) (pos 3) ∷ []) (form (pos 0 ∷ []) (pos 3) ∷ []) ≡ true ∷ true ∷ true ∷ true ∷ true ∷ true ∷ [] }
    // s(2 i) and s(4 i + 1): an even and an odd element, which the divisor 2 tells apart.
    ensures even_and_odd { meet_in_each (between (pos 0) (pos 7) 1 1 ∷ []) (form (pos 2 ∷ []) (pos 0) ∷ []) (form (pos 4 ∷ []) (pos 1) ∷ []) ≡ false ∷ false ∷ false ∷ false ∷ false ∷ false ∷ [] }
    // s(i) and s(2 i - 6), for i from 0 to 3: t steps on the difference is i + 2 t - 6, which is 0 for t from 2 to 3. In the
    // same group nothing is known of i.
    ensures by_the_interval { meet_in_each (between (pos 0) (pos 3) 1 1 ∷ []) (form (pos 1 ∷ []) (pos 0) ∷ []) (form (pos 2 ∷ []) (negsuc 5) ∷ []) ≡ true ∷ false ∷ true ∷ true ∷ false ∷ false ∷ [] }
    // Without the range every i is possible.
    ensures without_a_range { meet_in_each (somewhere 1 1 ∷ []) (form (pos 1 ∷ []) (pos 0) ∷ []) (form (pos 2 ∷ []) (negsuc 5) ∷ []) ≡ true ∷ true ∷ true ∷ true ∷ true ∷ true ∷ [] }
    // s(i, 0) and s(i - 1, 1): the second index tells them apart; s(i, 3) and s(i - 1, 3) are one a step later.
    ensures second_index { meet_in_each (between (pos 0) (pos 3) 1 1 ∷ []) (form (pos 1 ∷ []) (pos 0) ∷ form (pos 0 ∷ []) (pos 0) ∷ []) (form (pos 1 ∷ []) (negsuc 0) ∷ form (pos 0 ∷ []) (pos 1) ∷ []) ≡ false ∷ false ∷ false ∷ false ∷ false ∷ false ∷ [] }
    ensures both_indices { meet_in_each (between (pos 0) (pos 3) 1 1 ∷ []) (form (pos 1 ∷ []) (pos 0) ∷ form (pos 0 ∷ []) (pos 3) ∷ []) (form (pos 1 ∷ []) (negsuc 0) ∷ form (pos 0 ∷ []) (pos 3) ∷ []) ≡ false ∷ true ∷ false ∷ false ∷ false ∷ false ∷ [] }
    // s(i + r) and s(i - 1 + r), of one register r, and of two.
    ensures one_symbol { meet_in_each (between (pos 0) (pos 3) 1 1 ∷ []) (with_symbol 5 (form (pos 1 ∷ []) (pos 0)) ∷ []) (with_symbol 5 (form (pos 1 ∷ []) (negsuc 0)) ∷ []) ≡ false ∷ true ∷ false ∷ false ∷ false ∷ false ∷ [] }
    ensures two_symbols { meet_in_each (between (pos 0) (pos 3) 1 1 ∷ []) (with_symbol 5 (form (pos 1 ∷ []) (pos 0)) ∷ []) (with_symbol 6 (form (pos 1 ∷ []) (negsuc 0)) ∷ []) ≡ true ∷ true ∷ true ∷ true ∷ true ∷ true ∷ [] }
    // A counter outside, of which nothing is known: s(2 u + i) and s(i + 1) meet at some u where i has gone on by an odd
    // number of steps.
    ensures counter_outside { meet_in_each (between (pos 0) (pos 3) 1 1 ∷ []) (form (pos 2 ∷ pos 1 ∷ []) (pos 0) ∷ []) (form (pos 0 ∷ pos 1 ∷ []) (pos 1) ∷ []) ≡ false ∷ true ∷ false ∷ true ∷ false ∷ true ∷ [] }
{}

/// Whether two accesses may meet where an earlier counter has gone on.
pub fn worked_earlier_counters()
    // m(i, j), for i and j below 4 in four lanes of j: a later i is another row.
    ensures another_row { meet_in (between (pos 0) (pos 3) 1 1 ∷ between (pos 0) (pos 3) 1 4 ∷ []) (Earlier 0) (form (pos 1 ∷ pos 0 ∷ []) (pos 0) ∷ form (pos 0 ∷ pos 1 ∷ []) (pos 2) ∷ []) (form (pos 1 ∷ pos 0 ∷ []) (pos 0) ∷ form (pos 0 ∷ pos 1 ∷ []) (pos 1) ∷ []) ≡ false }
    // o(4 j + i): the least difference is 4 - 3, and for lanes 1 and 0 one less.
    ensures next_row { meet_in (between (pos 0) (pos 3) 1 1 ∷ between (pos 0) (pos 3) 1 4 ∷ []) (Earlier 0) (form (pos 4 ∷ pos 1 ∷ []) (pos 0) ∷ []) (form (pos 4 ∷ pos 1 ∷ []) (pos 0) ∷ []) ≡ false }
    ensures lane_before { meet_in (between (pos 0) (pos 3) 1 1 ∷ between (pos 0) (pos 3) 1 4 ∷ []) (Earlier 0) (form (pos 4 ∷ pos 1 ∷ []) (pos 1) ∷ []) (form (pos 4 ∷ pos 1 ∷ []) (pos 0) ∷ []) ≡ true }
    // s(j) in a loop over i and j: every later i.
    ensures same_column { meet_in (between (pos 0) (pos 3) 1 1 ∷ between (pos 0) (pos 3) 1 1 ∷ []) (Earlier 0) (form (pos 0 ∷ pos 1 ∷ []) (pos 0) ∷ []) (form (pos 0 ∷ pos 1 ∷ []) (pos 0) ∷ []) ≡ true }
    // s(i) and s(i + 6), and s(i - 6) and s(i): with i from 0 to 3 in steps of 1 at most three steps are made, and in
    // steps of 6 one, so the rest of 6 isn't reached or is.
    ensures three_steps { meet_in (between (pos 0) (pos 3) 1 1 ∷ between (pos 0) (pos 3) 1 1 ∷ []) (Earlier 0) (form (pos 1 ∷ pos 0 ∷ []) (pos 6) ∷ []) (form (pos 1 ∷ pos 0 ∷ []) (pos 0) ∷ []) ≡ false }
    ensures long_step { meet_in (between (pos 0) (pos 3) 6 1 ∷ between (pos 0) (pos 3) 1 1 ∷ []) (Earlier 0) (form (pos 1 ∷ pos 0 ∷ []) (pos 6) ∷ []) (form (pos 1 ∷ pos 0 ∷ []) (pos 0) ∷ []) ≡ true }
    ensures steps_without_end { meet_in (somewhere 1 1 ∷ between (pos 0) (pos 3) 1 1 ∷ []) (Earlier 0) (form (pos 1 ∷ pos 0 ∷ []) (pos 6) ∷ []) (form (pos 1 ∷ pos 0 ∷ []) (pos 0) ∷ []) ≡ true }
    ensures no_step_back { meet_in (somewhere 1 1 ∷ between (pos 0) (pos 3) 1 1 ∷ []) (Earlier 0) (form (pos 1 ∷ pos 0 ∷ []) (pos 0) ∷ []) (form (pos 1 ∷ pos 0 ∷ []) (pos 6) ∷ []) ≡ false }
    // Of the first two of three counters, the second one: the first one agrees.
    ensures second_of_three { meet_in (between (pos 0) (pos 3) 1 1 ∷ between (pos 0) (pos 3) 1 1 ∷ between (pos 0) (pos 3) 1 1 ∷ []) (Earlier 1) (form (pos 100 ∷ pos 10 ∷ pos 1 ∷ []) (pos 10) ∷ []) (form (pos 100 ∷ pos 10 ∷ pos 1 ∷ []) (pos 0) ∷ []) ≡ true }
    // An unknown index keeps the class.
    ensures unknown { may_meet (all_common (between (pos 0) (pos 3) 1 1 ∷ between (pos 0) (pos 3) 1 1 ∷ [])) (Earlier 0) None (Some (form (pos 1 ∷ pos 0 ∷ []) (pos 0) ∷ [])) ≡ true }
{}
