//! Worked programs. Each function does nothing: what it ensures are the ends of programs, which were worked out by
//! other means.

ghost use Rattle.std.specs.Prelude.{◌≡◌, codes, [], ◌∷◌, true, false, replicate, Some};
ghost use Rattle.sp_tree.specs.declared.statement.FaultKind.TheVariants.{Bounds, Unwritten, FifoFull, FifoEmpty, DramBounds, RowLength};
ghost use Rattle.sp_tree.specs.Counts.{counts_of};
ghost use Rattle.sp_tree.specs.Elements.{numbers_below};
ghost use Rattle.sp_tree.specs.ExampleForms.{input, named, results, shape_of};
ghost use Rattle.sp_tree.specs.ExampleLoops.{sum_program, one_iteration, no_iteration, folded, unwritten_fold, counting_down, register_between, early_read, full_queue, queued, memory_reduced, recurrence, far_recurrence, running_sum, two_loops};
ghost use Rattle.sp_tree.specs.ExampleStreams.{stream_mems, doubled, streamed, left_over, joined_twice, streamed_twice, lone_stage, with_value, with_loop_inside, two_put, two_take, puts_and_takes, shares_register, reads_register, shares_outer_queue, bound_in_array, ring, scattered, far_gather, unwritten_scatter, widely_copied};
ghost use Rattle.sp_tree.specs.ExampleTransfers.{dot_product, squares, histogram, transposed, sums_of_two, sums_of_three, gathered, line_filter, copied, overlapping_stores, wide_words, empty_slice, slice_outside, long_slice, mixed_stages};
ghost use Rattle.sp_tree.specs.Invariant.{IsProgram};
ghost use Rattle.sp_tree.specs.Meaning.{seq, stopped, unfinished};
ghost use Rattle.sp_tree.specs.PlainStatement.{no_stmt};
ghost use Rattle.sp_tree.specs.Streams.{is_proper};
ghost use Rattle.sp_tree.specs.Transfers.{words_by_lane};
ghost use Rattle.sp_tree.specs.Shape.{shapes, ran, looped, turned, branched, moved, no_shape};

/// Programs of loops, registers and queues: the outputs, the DRAMs and the turns, or the fault and its place.
pub fn worked_loops()
    ensures sum { results (seq 100 sum_program (input (4 ∷ []) [])) ≡ Some ((7 ∷ []), [], 2) }
    ensures wrapped_sum { results (seq 100 sum_program (input (2147483647 ∷ []) [])) ≡ Some ((2147483650 ∷ []), [], 2) }
    ensures enough_turns { results (seq 2 sum_program (input (4 ∷ []) [])) ≡ Some ((7 ∷ []), [], 2) }
    ensures too_few_turns { seq 1 sum_program (input (4 ∷ []) []) ≡ unfinished }
    ensures one_iteration { results (seq 100 one_iteration (input [] [])) ≡ Some ((0 ∷ []), [], 2) }
    ensures no_iteration { results (seq 100 no_iteration (input [] [])) ≡ Some ((0 ∷ []), [], 2) }
    ensures folded { results (seq 100 folded (input [] [])) ≡ Some ((16 ∷ []), [], 9) }
    ensures unwritten_fold { seq 100 unwritten_fold (input [] []) ≡ stopped Unwritten 9 }
    ensures no_turn_of_an_fsm { results (seq 100 counting_down (input (0 ∷ []) [])) ≡ Some ((0 ∷ []), [], 4) }
    ensures five_turns_of_an_fsm { results (seq 100 counting_down (input (5 ∷ []) [])) ≡ Some ((15 ∷ []), [], 14) }
    ensures register_between { results (seq 100 register_between (input [] (replicate 4 0 ∷ []))) ≡ Some ([], ((10 ∷ 11 ∷ 12 ∷ 13 ∷ []) ∷ []), 29) }
    ensures unwritten_element { seq 100 (early_read 0) (input [] []) ≡ stopped Unwritten 56 }
    ensures index_past_the_end { seq 100 (early_read 2) (input [] []) ≡ stopped Bounds 56 }
    ensures negative_index { seq 100 (early_read 4294967295) (input [] []) ≡ stopped Bounds 56 }
    ensures full_queue { seq 100 full_queue (input [] []) ≡ stopped FifoFull 73 }
    ensures four_of_four { results (seq 100 (queued 4) (input [] (replicate 4 0 ∷ []))) ≡ Some ([], ((0 ∷ 1 ∷ 4 ∷ 9 ∷ []) ∷ []), 26) }
    ensures five_of_four { seq 100 (queued 5) (input [] (replicate 4 0 ∷ [])) ≡ stopped FifoEmpty 7 }
    ensures memory_reduced { results (seq 100 memory_reduced (input [] ((0 ∷ 0 ∷ []) ∷ []))) ≡ Some ([], ((30 ∷ 33 ∷ []) ∷ []), 33) }
    ensures running_sum { results (seq 14 running_sum (input [] [])) ≡ Some ((10 ∷ []), [], 14) }
    ensures two_loops { results (seq 406 two_loops (input [] [])) ≡ Some ((100 ∷ []), [], 406) }
    ensures recurrence { results (seq 100 recurrence (input [] (replicate 8 0 ∷ []))) ≡ Some ([], (numbers_below 8 ∷ []), 27) }
    ensures far_recurrence { results (seq 100 far_recurrence (input [] (replicate 16 0 ∷ []))) ≡ Some ([], ((0 ∷ 0 ∷ 0 ∷ 0 ∷ 1 ∷ 1 ∷ 1 ∷ 1 ∷ 2 ∷ 2 ∷ 2 ∷ 2 ∷ 3 ∷ 3 ∷ 3 ∷ 3 ∷ []) ∷ []), 53) }
{}

/// Programs of DRAMs, slices and line buffers.
pub fn worked_transfers()
    ensures dot_product { results (seq 1000 dot_product (input [] (numbers_below 64 ∷ replicate 64 1 ∷ []))) ≡ Some ((2016 ∷ []), (numbers_below 64 ∷ replicate 64 1 ∷ []), 224) }
    ensures squares { results (seq 100 squares (input [] (replicate 10 0 ∷ []))) ≡ Some ([], ((0 ∷ 1 ∷ 4 ∷ 9 ∷ 16 ∷ 25 ∷ 36 ∷ 49 ∷ 64 ∷ 81 ∷ []) ∷ []), 34) }
    ensures histogram { results (seq 100 histogram (input [] ((0 ∷ 1 ∷ 1 ∷ 3 ∷ 1 ∷ 0 ∷ 2 ∷ 1 ∷ []) ∷ replicate 4 0 ∷ []))) ≡ Some ([], ((0 ∷ 1 ∷ 1 ∷ 3 ∷ 1 ∷ 0 ∷ 2 ∷ 1 ∷ []) ∷ (2 ∷ 4 ∷ 1 ∷ 1 ∷ []) ∷ []), 51) }
    ensures transposed { results (seq 200 transposed (input [] (replicate 16 0 ∷ []))) ≡ Some ([], ((0 ∷ 4 ∷ 8 ∷ 12 ∷ 1 ∷ 5 ∷ 9 ∷ 13 ∷ 2 ∷ 6 ∷ 10 ∷ 14 ∷ 3 ∷ 7 ∷ 11 ∷ 15 ∷ []) ∷ []), 86) }
    ensures sums_of_two { results (seq 100 sums_of_two (input [] (numbers_below 8 ∷ replicate 6 0 ∷ []))) ≡ Some ([], (numbers_below 8 ∷ (2 ∷ 4 ∷ 6 ∷ 8 ∷ 10 ∷ 12 ∷ []) ∷ []), 32) }
    ensures sums_of_three { results (seq 100 sums_of_three (input [] (numbers_below 8 ∷ replicate 4 0 ∷ []))) ≡ Some ([], (numbers_below 8 ∷ (6 ∷ 9 ∷ 12 ∷ 15 ∷ []) ∷ []), 26) }
    ensures gathered { results (seq 100 gathered (input [] ((10 ∷ 20 ∷ 30 ∷ 40 ∷ 50 ∷ 60 ∷ 70 ∷ 80 ∷ []) ∷ (7 ∷ 0 ∷ 0 ∷ 3 ∷ 7 ∷ 1 ∷ 2 ∷ 2 ∷ []) ∷ replicate 8 0 ∷ []))) ≡ Some ([], ((10 ∷ 20 ∷ 30 ∷ 40 ∷ 50 ∷ 60 ∷ 70 ∷ 80 ∷ []) ∷ (7 ∷ 0 ∷ 0 ∷ 3 ∷ 7 ∷ 1 ∷ 2 ∷ 2 ∷ []) ∷ (80 ∷ 10 ∷ 10 ∷ 40 ∷ 80 ∷ 20 ∷ 30 ∷ 30 ∷ []) ∷ []), 48) }
    ensures line_filter { results (seq 1000 (line_filter 5 144) (input [] (numbers_below 20 ∷ replicate 6 0 ∷ []))) ≡ Some ([], (numbers_below 20 ∷ (54 ∷ 63 ∷ 72 ∷ 99 ∷ 108 ∷ 117 ∷ []) ∷ []), 124) }
    ensures narrow_line_filter { seq 1000 (line_filter 4 144) (input [] (numbers_below 20 ∷ replicate 6 0 ∷ [])) ≡ stopped RowLength 144 }
    ensures copied { results (seq 100 copied (input [] ((1 ∷ 2 ∷ 3 ∷ 4 ∷ 5 ∷ 6 ∷ 7 ∷ 8 ∷ []) ∷ replicate 8 0 ∷ []))) ≡ Some ([], ((1 ∷ 2 ∷ 3 ∷ 4 ∷ 5 ∷ 6 ∷ 7 ∷ 8 ∷ []) ∷ (1 ∷ 2 ∷ 3 ∷ 4 ∷ 5 ∷ 6 ∷ 7 ∷ 8 ∷ []) ∷ []), 26) }
    ensures overlapping_stores { results (seq 100 overlapping_stores (input [] (replicate 5 0 ∷ []))) ≡ Some ([], ((0 ∷ 1 ∷ 2 ∷ 3 ∷ 3 ∷ []) ∷ []), 42) }
    ensures wide_words { results (seq 100 wide_words (input [] ((18446744073709551615 ∷ 0 ∷ []) ∷ []))) ≡ Some ([], ((18446744073709551615 ∷ 0 ∷ []) ∷ []), 1) }
    ensures empty_slice { results (seq 100 empty_slice (input [] ((1 ∷ 2 ∷ 3 ∷ 4 ∷ []) ∷ []))) ≡ Some ([], ((1 ∷ 2 ∷ 3 ∷ 4 ∷ []) ∷ []), 3) }
    ensures slice_outside { seq 100 slice_outside (input [] ((1 ∷ 2 ∷ 3 ∷ 4 ∷ []) ∷ [])) ≡ stopped DramBounds 5 }
    ensures long_slice { seq 100 long_slice (input [] ((1 ∷ 2 ∷ 3 ∷ 4 ∷ []) ∷ [])) ≡ stopped Bounds 5 }
    ensures mixed_stages { results (seq 200 mixed_stages (input [] ((1 ∷ 2 ∷ 3 ∷ 4 ∷ []) ∷ []))) ≡ Some ((52 ∷ []), ((1 ∷ 2 ∷ 3 ∷ 4 ∷ []) ∷ []), 68) }
{}

/// Programs of stream blocks, gathers and scatters, and slices of several lanes.
pub fn worked_streams()
    ensures streamed { results (seq 100 streamed (input [] [])) ≡ Some ((56 ∷ []), [], 49) }
    ensures two_words_left_over { results (seq 100 (left_over 6) (input [] [])) ≡ Some ((5 ∷ []), [], 33) }
    ensures three_words_left_over { seq 100 (left_over 5) (input [] []) ≡ stopped FifoFull 29 }
    ensures joined_twice { seq 100 streamed_twice (input [] []) ≡ stopped FifoFull 7 }
    ensures scattered { results (seq 100 scattered (input [] ((10 ∷ 20 ∷ 30 ∷ 40 ∷ 50 ∷ 60 ∷ 70 ∷ 80 ∷ []) ∷ (3 ∷ 0 ∷ 7 ∷ 7 ∷ []) ∷ replicate 8 0 ∷ []))) ≡ Some ([], ((10 ∷ 20 ∷ 30 ∷ 40 ∷ 50 ∷ 60 ∷ 70 ∷ 80 ∷ []) ∷ (3 ∷ 0 ∷ 7 ∷ 7 ∷ []) ∷ (10 ∷ 0 ∷ 0 ∷ 40 ∷ 0 ∷ 0 ∷ 0 ∷ 80 ∷ []) ∷ []), 18) }
    ensures place_past_the_end { seq 100 scattered (input [] (replicate 8 0 ∷ (3 ∷ 0 ∷ 8 ∷ 7 ∷ []) ∷ replicate 8 0 ∷ [])) ≡ stopped DramBounds 136 }
    ensures gathered_past_its_end { seq 100 (far_gather 3 4) (input [] (replicate 8 0 ∷ replicate 4 0 ∷ [])) ≡ stopped Bounds 5 }
    ensures place_before_element { seq 100 (far_gather 3 4) (input [] (replicate 8 0 ∷ (0 ∷ 0 ∷ 8 ∷ 0 ∷ []) ∷ [])) ≡ stopped DramBounds 5 }
    ensures unwritten_place { seq 100 (far_gather 2 1) (input [] (replicate 8 0 ∷ replicate 4 0 ∷ [])) ≡ stopped Unwritten 5 }
    ensures unwritten_word { seq 100 unwritten_scatter (input [] (replicate 8 0 ∷ replicate 4 0 ∷ [])) ≡ stopped Unwritten 5 }
    ensures nothing_gathered { results (seq 9 (far_gather 4294967295 4) (input [] (replicate 8 0 ∷ replicate 4 9 ∷ []))) ≡ Some ([], (replicate 8 0 ∷ replicate 4 9 ∷ []), 9) }
    ensures copied { results (seq 100 widely_copied (input [] ((1 ∷ 2 ∷ 3 ∷ 4 ∷ 5 ∷ 6 ∷ 7 ∷ 8 ∷ []) ∷ replicate 8 0 ∷ []))) ≡ Some ([], ((1 ∷ 2 ∷ 3 ∷ 4 ∷ 5 ∷ 6 ∷ 7 ∷ 8 ∷ []) ∷ (1 ∷ 2 ∷ 3 ∷ 4 ∷ 5 ∷ 6 ∷ 7 ∷ 8 ∷ []) ∷ []), 26) }
{}

/// Which stream blocks are proper.
pub fn worked_blocks()
    ensures empty { is_proper stream_mems no_stmt ≡ true }
    ensures chain { is_proper stream_mems doubled ≡ true }
    ensures lone_stage { is_proper stream_mems lone_stage ≡ true }
    ensures reads_one_register { is_proper stream_mems reads_register ≡ true }
    ensures joined_twice { is_proper stream_mems joined_twice ≡ false }
    ensures ring { is_proper stream_mems ring ≡ false }
    ensures value { is_proper stream_mems with_value ≡ false }
    ensures loop_inside { is_proper stream_mems with_loop_inside ≡ false }
    ensures two_put { is_proper stream_mems two_put ≡ false }
    ensures two_take { is_proper stream_mems two_take ≡ false }
    ensures puts_and_takes { is_proper stream_mems puts_and_takes ≡ false }
    ensures shared_register { is_proper stream_mems shares_register ≡ false }
    ensures shared_outer_queue { is_proper stream_mems shares_outer_queue ≡ false }
    ensures bound_in_array { is_proper stream_mems bound_in_array ≡ false }
{}

/// How often things were done, for some of these programs.
pub fn worked_shapes()
    ensures loop_without_iterations { shape_of (seq 100 no_iteration (input [] [])) ≡ Some (ran (shapes (looped (0 ∷ []) no_shape ∷ []))) }
    ensures fsm_turns { shape_of (seq 100 counting_down (input (5 ∷ []) [])) ≡ Some (ran (shapes (turned 5 (shapes (replicate 5 (ran no_shape))) ∷ []))) }
    ensures loops_in_loops { shape_of (seq 100 overlapping_stores (input [] (replicate 5 0 ∷ []))) ≡ Some (ran (shapes (looped (4 ∷ []) (shapes (replicate 4 (ran (shapes (looped (2 ∷ []) (shapes (ran no_shape ∷ ran no_shape ∷ [])) ∷ moved (2 ∷ []) ∷ []))))) ∷ []))) }
    ensures several_lanes { shape_of (seq 100 widely_copied (input [] (replicate 8 0 ∷ replicate 8 0 ∷ []))) ≡ Some (ran (shapes (looped (2 ∷ []) (shapes (replicate 2 (ran (shapes (moved (1 ∷ 1 ∷ 1 ∷ 1 ∷ []) ∷ moved (4 ∷ []) ∷ []))))) ∷ []))) }
    ensures lanes_of_a_row { words_by_lane 4 (10 ∷ []) ≡ (3 ∷ 3 ∷ 2 ∷ 2 ∷ []) }
    ensures lanes_of_two_rows { words_by_lane 4 (2 ∷ 3 ∷ []) ≡ (2 ∷ 2 ∷ 2 ∷ 0 ∷ []) }
    ensures lanes_of_no_rows { words_by_lane 3 (0 ∷ 5 ∷ []) ≡ (0 ∷ 0 ∷ 0 ∷ []) }
    ensures gathers { shape_of (seq 100 scattered (input [] (replicate 8 0 ∷ (3 ∷ 0 ∷ 7 ∷ 7 ∷ []) ∷ replicate 8 0 ∷ []))) ≡ Some (ran (shapes (moved (4 ∷ []) ∷ moved (4 ∷ []) ∷ moved (4 ∷ []) ∷ []))) }
    ensures branches_and_transfers { shape_of (seq 1000 (line_filter 5 144) (input [] (numbers_below 20 ∷ replicate 6 0 ∷ []))) ≡ Some (ran (shapes (looped (4 ∷ []) (shapes (ran (shapes (moved (5 ∷ []) ∷ branched false (ran no_shape) ∷ [])) ∷ ran (shapes (moved (5 ∷ []) ∷ branched false (ran no_shape) ∷ [])) ∷ ran (shapes (moved (5 ∷ []) ∷ branched true (ran (shapes (looped (3 ∷ []) (shapes (replicate 3 (ran (shapes (looped (3 ∷ 3 ∷ []) (shapes (replicate 9 (ran no_shape))) ∷ []))))) ∷ moved (3 ∷ []) ∷ []))) ∷ [])) ∷ ran (shapes (moved (5 ∷ []) ∷ branched true (ran (shapes (looped (3 ∷ []) (shapes (replicate 3 (ran (shapes (looped (3 ∷ 3 ∷ []) (shapes (replicate 9 (ran no_shape))) ∷ []))))) ∷ moved (3 ∷ []) ∷ []))) ∷ [])) ∷ [])) ∷ []))) }
{}

/// The seven counts of these programs, in the order of their limits: nodes, lanes, operations of one run, operations,
/// words, copies and words of DRAMs.
pub fn worked_counts()
    ensures dot_product { counts_of dot_product ≡ 31 ∷ 4 ∷ 12 ∷ 19 ∷ 34 ∷ 83 ∷ 128 ∷ [] }
    ensures line_filter { counts_of (line_filter 5 144) ≡ 38 ∷ 1 ∷ 2 ∷ 8 ∷ 19 ∷ 20 ∷ 26 ∷ [] }
    ensures mixed_stages { counts_of mixed_stages ≡ 38 ∷ 2 ∷ 8 ∷ 28 ∷ 7 ∷ 205 ∷ 4 ∷ [] }
    ensures transposed { counts_of transposed ≡ 33 ∷ 4 ∷ 16 ∷ 29 ∷ 32 ∷ 32 ∷ 16 ∷ [] }
    ensures overlapping_stores { counts_of overlapping_stores ≡ 16 ∷ 2 ∷ 2 ∷ 6 ∷ 2 ∷ 8 ∷ 5 ∷ [] }
    ensures memory_reduced { counts_of memory_reduced ≡ 19 ∷ 1 ∷ 3 ∷ 4 ∷ 4 ∷ 8 ∷ 2 ∷ [] }
    ensures register_between { counts_of register_between ≡ 18 ∷ 1 ∷ 3 ∷ 5 ∷ 5 ∷ 5 ∷ 4 ∷ [] }
    ensures counting_down { counts_of counting_down ≡ 17 ∷ 1 ∷ 3 ∷ 8 ∷ 1 ∷ 2 ∷ 0 ∷ [] }
    ensures streamed { counts_of streamed ≡ 23 ∷ 1 ∷ 3 ∷ 7 ∷ 131079 ∷ 5 ∷ 0 ∷ [] }
    ensures streamed_twice { counts_of streamed_twice ≡ 26 ∷ 1 ∷ 4 ∷ 9 ∷ 11 ∷ 7 ∷ 0 ∷ [] }
    ensures scattered { counts_of scattered ≡ 12 ∷ 1 ∷ 0 ∷ 3 ∷ 8 ∷ 12 ∷ 20 ∷ [] }
    ensures widely_copied { counts_of widely_copied ≡ 16 ∷ 8 ∷ 0 ∷ 8 ∷ 4 ∷ 16 ∷ 16 ∷ [] }
    ensures queued { counts_of (queued 4) ≡ 19 ∷ 1 ∷ 2 ∷ 5 ∷ 8 ∷ 8 ∷ 4 ∷ [] }
{}

/// Two of these programs, with names, are programs: what every program keeps can be met.
pub fn worked_programs_are_typed()
    ensures dot_product { IsProgram (named dot_product (codes "a" ∷ codes "b" ∷ codes "y" ∷ codes "acc" ∷ codes "ta" ∷ codes "tb" ∷ codes "part" ∷ []) [] (codes "t" ∷ codes "i" ∷ [])) }
    ensures counting_down { IsProgram (named counting_down (codes "x" ∷ codes "y" ∷ codes "n" ∷ []) (codes "s" ∷ codes "s" ∷ codes "s" ∷ []) []) }
{}
