//! Worked cores. Each function does nothing: what it ensures are the ends of cores, which were worked out by other means.

ghost use Rattle.std.specs.Prelude.{◌≡◌, [], ◌∷◌, replicate, true, false, pos, Some, None};
ghost use Rattle.sp_core.specs.declared.node.SparseKind.TheVariants.{WideLoad};
ghost use Rattle.sp_core.specs.Cost.{inner_timing, outer_timing, wide_timing, no_timing, sparse_cost};
ghost use Rattle.sp_core.specs.Elements.{numbers_below};
ghost use Rattle.sp_core.specs.Events.{reads, writes};
ghost use Rattle.sp_core.specs.ExampleBroken.{later_argument, use_outside, owned_twice, counter_of_another_loop, lanes_out_of_order, memory_without_owner};
ghost use Rattle.sp_core.specs.ExampleForms.{input, results, timed, shape_in, cost_in, met_in, held_in, acts_in};
ghost use Rattle.sp_core.specs.ExampleLanes.{squares_in_lanes, dot_product_in_lanes, stores_in_lanes};
ghost use Rattle.sp_core.specs.ExampleLoops.{sum_core, counting_down, register_between, fresh_registers, queued, memory_reduced, streamed, two_loops, two_statements, running_sum, shifted};
ghost use Rattle.sp_core.specs.ExampleMeets.{histogram_forms, histogram_meets, squares_forms, squares_meets, stores_meets, shifted_forms};
ghost use Rattle.sp_core.specs.ExampleTransfers.{dot_product, wide_dot_product, squares, histogram, line_filter, copied, copied_at_once, overlapping_stores, gathered};
ghost use Rattle.sp_core.specs.Invariant.{wrong_place};
ghost use Rattle.sp_core.specs.Latency.{weight, limit};
ghost use Rattle.sp_core.specs.Meaning.{meaning, failed, unfinished};
ghost use Rattle.sp_core.specs.Scope.{plainly, in_lanes};
ghost use Rattle.sp_core.specs.Shape.{inner_shape, outer_shape, words_shape, lanes_shape, no_group_shape, more_group_shape, no_stage_shape, masked_shape, more_stage_shape, wide_shape};

/// Cores of loops, registers and queues, as `desugar` gives them: the words of the outputs and of the DRAMs.
pub fn worked_loops()
    ensures sum { results (meaning plainly 0 sum_core (input (4 ∷ []) [])) ≡ Some ((7 ∷ []), []) }
    ensures no_turn_of_an_fsm { results (meaning plainly 0 counting_down (input (0 ∷ []) [])) ≡ Some ((0 ∷ []), []) }
    ensures five_turns_of_an_fsm { results (meaning plainly 5 counting_down (input (5 ∷ []) [])) ≡ Some ((15 ∷ []), []) }
    ensures too_few_turns { meaning plainly 4 counting_down (input (5 ∷ []) []) ≡ unfinished }
    ensures register_between { results (meaning plainly 0 register_between (input [] (replicate 4 0 ∷ []))) ≡ Some ([], ((10 ∷ 11 ∷ 12 ∷ 13 ∷ []) ∷ [])) }
    ensures fresh_registers { results (meaning plainly 0 fresh_registers (input [] [])) ≡ Some ((19 ∷ []), []) }
    ensures four_of_four { results (meaning plainly 0 (queued 4) (input [] (replicate 4 0 ∷ []))) ≡ Some ([], ((0 ∷ 1 ∷ 4 ∷ 9 ∷ []) ∷ [])) }
    ensures five_of_four { meaning plainly 0 (queued 5) (input [] (replicate 4 0 ∷ [])) ≡ failed }
    ensures memory_reduced { results (meaning plainly 0 memory_reduced (input [] ((0 ∷ 0 ∷ []) ∷ []))) ≡ Some ([], ((30 ∷ 33 ∷ []) ∷ [])) }
    ensures streamed { results (meaning plainly 0 (streamed 2 8) (input [] [])) ≡ Some ((56 ∷ []), []) }
    ensures two_left { results (meaning plainly 0 (streamed 2 6) (input [] [])) ≡ Some ((30 ∷ []), []) }
    ensures three_left { meaning plainly 0 (streamed 2 5) (input [] []) ≡ failed }
{}

/// Cores of DRAMs, slices and line buffers.
pub fn worked_transfers()
    ensures dot_product { results (meaning plainly 0 dot_product (input [] (numbers_below 64 ∷ replicate 64 1 ∷ []))) ≡ Some ((2016 ∷ []), (numbers_below 64 ∷ replicate 64 1 ∷ [])) }
    ensures wide_dot_product { results (meaning plainly 0 wide_dot_product (input [] (numbers_below 64 ∷ replicate 64 1 ∷ []))) ≡ Some ((2016 ∷ []), (numbers_below 64 ∷ replicate 64 1 ∷ [])) }
    ensures squares { results (meaning plainly 0 squares (input [] (replicate 10 0 ∷ []))) ≡ Some ([], ((0 ∷ 1 ∷ 4 ∷ 9 ∷ 16 ∷ 25 ∷ 36 ∷ 49 ∷ 64 ∷ 81 ∷ []) ∷ [])) }
    ensures histogram { results (meaning plainly 0 histogram (input [] ((0 ∷ 1 ∷ 1 ∷ 3 ∷ 1 ∷ 0 ∷ 2 ∷ 1 ∷ []) ∷ replicate 4 0 ∷ []))) ≡ Some ([], ((0 ∷ 1 ∷ 1 ∷ 3 ∷ 1 ∷ 0 ∷ 2 ∷ 1 ∷ []) ∷ (2 ∷ 4 ∷ 1 ∷ 1 ∷ []) ∷ [])) }
    ensures line_filter { results (meaning plainly 0 (line_filter 5) (input [] (numbers_below 20 ∷ replicate 6 0 ∷ []))) ≡ Some ([], (numbers_below 20 ∷ (54 ∷ 63 ∷ 72 ∷ 99 ∷ 108 ∷ 117 ∷ []) ∷ [])) }
    ensures narrow_line_filter { meaning plainly 0 (line_filter 4) (input [] (numbers_below 20 ∷ replicate 6 0 ∷ [])) ≡ failed }
    ensures copied { results (meaning plainly 0 (copied 8 4) (input [] ((1 ∷ 2 ∷ 3 ∷ 4 ∷ 5 ∷ 6 ∷ 7 ∷ 8 ∷ []) ∷ replicate 8 0 ∷ []))) ≡ Some ([], ((1 ∷ 2 ∷ 3 ∷ 4 ∷ 5 ∷ 6 ∷ 7 ∷ 8 ∷ []) ∷ (1 ∷ 2 ∷ 3 ∷ 4 ∷ 5 ∷ 6 ∷ 7 ∷ 8 ∷ []) ∷ [])) }
    ensures overlapping_stores { results (meaning plainly 0 overlapping_stores (input [] (replicate 5 0 ∷ []))) ≡ Some ([], ((0 ∷ 1 ∷ 2 ∷ 3 ∷ 3 ∷ []) ∷ [])) }
    ensures gathered { results (meaning plainly 0 gathered (input [] ((10 ∷ 20 ∷ 30 ∷ 40 ∷ 50 ∷ 60 ∷ 70 ∷ 80 ∷ []) ∷ (3 ∷ 0 ∷ 7 ∷ 7 ∷ []) ∷ replicate 8 0 ∷ []))) ≡ Some ([], ((10 ∷ 20 ∷ 30 ∷ 40 ∷ 50 ∷ 60 ∷ 70 ∷ 80 ∷ []) ∷ (3 ∷ 0 ∷ 7 ∷ 7 ∷ []) ∷ (10 ∷ 0 ∷ 0 ∷ 40 ∷ 0 ∷ 0 ∷ 0 ∷ 80 ∷ []) ∷ [])) }
    ensures gathered_outside { meaning plainly 0 gathered (input [] ((10 ∷ 20 ∷ 30 ∷ 40 ∷ 50 ∷ 60 ∷ 70 ∷ 80 ∷ []) ∷ (3 ∷ 0 ∷ 8 ∷ 7 ∷ []) ∷ replicate 8 0 ∷ [])) ≡ failed }
{}

/// The same in lanes, as `unroll` gives them. The last group of the squares has two lanes, that of three stores one.
pub fn worked_lanes()
    ensures squares { results (meaning in_lanes 0 squares_in_lanes (input [] (replicate 10 0 ∷ []))) ≡ Some ([], ((0 ∷ 1 ∷ 4 ∷ 9 ∷ 16 ∷ 25 ∷ 36 ∷ 49 ∷ 64 ∷ 81 ∷ []) ∷ [])) }
    ensures dot_product { results (meaning in_lanes 0 dot_product_in_lanes (input [] (numbers_below 64 ∷ replicate 64 1 ∷ []))) ≡ Some ((2016 ∷ []), (numbers_below 64 ∷ replicate 64 1 ∷ [])) }
    ensures stores { results (meaning in_lanes 0 (stores_in_lanes 4) (input [] (replicate 5 9 ∷ []))) ≡ Some ([], ((0 ∷ 1 ∷ 2 ∷ 3 ∷ 3 ∷ []) ∷ [])) }
    ensures three_stores { results (meaning in_lanes 0 (stores_in_lanes 3) (input [] (replicate 5 9 ∷ []))) ≡ Some ([], ((0 ∷ 1 ∷ 2 ∷ 2 ∷ 9 ∷ []) ∷ [])) }
{}

/// Worked cores keep the rules of cores: no node shows that one is broken. Where one is broken, the first node shows it.
pub fn worked_cores_are_right()
    ensures sum { wrong_place sum_core ≡ None }
    ensures counting_down { wrong_place counting_down ≡ None }
    ensures register_between { wrong_place register_between ≡ None }
    ensures fresh_registers { wrong_place fresh_registers ≡ None }
    ensures queued { wrong_place (queued 4) ≡ None }
    ensures memory_reduced { wrong_place memory_reduced ≡ None }
    ensures streamed { wrong_place (streamed 2 8) ≡ None }
    ensures dot_product { wrong_place dot_product ≡ None }
    ensures wide_dot_product { wrong_place wide_dot_product ≡ None }
    ensures line_filter { wrong_place (line_filter 5) ≡ None }
    ensures gathered { wrong_place gathered ≡ None }
    ensures squares_in_lanes { wrong_place squares_in_lanes ≡ None }
    ensures dot_product_in_lanes { wrong_place dot_product_in_lanes ≡ None }
    ensures stores_in_lanes { wrong_place (stores_in_lanes 4) ≡ None }
    ensures later_argument { wrong_place later_argument ≡ Some 0 }
    ensures use_outside { wrong_place use_outside ≡ Some 2 }
    ensures owned_twice { wrong_place owned_twice ≡ Some 3 }
    ensures counter_of_another_loop { wrong_place counter_of_another_loop ≡ Some 2 }
    ensures lanes_out_of_order { wrong_place lanes_out_of_order ≡ Some 1 }
    ensures memory_without_owner { wrong_place memory_without_owner ≡ Some 0 }
{}

/// The weights of cores and their limits.
pub fn worked_limits()
    ensures sum { weight sum_core sum_core.root ≡ 10 }
    ensures sum_limit { limit 2 0 sum_core ≡ 264 }
    ensures two_statements { weight two_statements two_statements.root ≡ 19 }
    ensures two_statements_limit { limit 3 0 two_statements ≡ 640 }
    ensures running_sum { weight running_sum running_sum.root ≡ 22 }
    ensures running_sum_limit { limit 14 0 running_sum ≡ 2760 }
    ensures delayed_limit { limit 14 5 running_sum ≡ 2835 }
    ensures counting_down { weight counting_down counting_down.root ≡ 38 }
{}

/// How often things were done in runs.
pub fn worked_shapes()
    ensures counts_of_lanes { shape_in squares_in_lanes (meaning in_lanes 0 squares_in_lanes (input [] (replicate 10 0 ∷ []))) ≡ Some (outer_shape [] (more_group_shape (more_stage_shape (inner_shape (10 ∷ [])) (more_stage_shape (words_shape 10) no_stage_shape)) no_group_shape)) }
    ensures masked_stages { shape_in (stores_in_lanes 3) (meaning in_lanes 0 (stores_in_lanes 3) (input [] (replicate 5 9 ∷ []))) ≡ Some (outer_shape [] (more_group_shape (more_stage_shape (outer_shape (3 ∷ []) (
        more_group_shape (more_stage_shape (inner_shape (2 ∷ [])) (more_stage_shape (words_shape 2) (more_stage_shape (inner_shape (2 ∷ [])) (more_stage_shape (words_shape 2) no_stage_shape)))) (
        more_group_shape (more_stage_shape (inner_shape (2 ∷ [])) (more_stage_shape (words_shape 2) (masked_shape (masked_shape no_stage_shape)))) no_group_shape))) no_stage_shape) no_group_shape)) }
    ensures wide_row { wide_shape 4 (16 ∷ []) ≡ lanes_shape (4 ∷ 4 ∷ 4 ∷ 4 ∷ []) }
    ensures wide_rows { wide_shape 4 (2 ∷ 10 ∷ []) ≡ lanes_shape (6 ∷ 6 ∷ 4 ∷ 4 ∷ []) }
    ensures wide_nothing { wide_shape 2 (3 ∷ 0 ∷ []) ≡ lanes_shape (0 ∷ 0 ∷ []) }
{}

/// What runs cost by the numbers of a plan and a greatest delay.
pub fn worked_costs()
    ensures sum { cost_in sum_core (inner_timing 3 3 ∷ []) 0 (meaning in_lanes 0 sum_core (input (4 ∷ []) [])) ≡ Some 7 }
    ensures two_loops { cost_in two_loops (outer_timing (0 ∷ 1 ∷ 2 ∷ []) (0 ∷ 0 ∷ 0 ∷ []) ∷ inner_timing 1 1 ∷ inner_timing 1 4 ∷ inner_timing 1 3 ∷ []) 0 (meaning in_lanes 0 two_loops (input [] [])) ≡ Some 219 }
    ensures counting_down { cost_in counting_down (outer_timing (0 ∷ 1 ∷ []) (0 ∷ 0 ∷ []) ∷ no_timing ∷ inner_timing 3 3 ∷ inner_timing 2 2 ∷ []) 0 (meaning in_lanes 5 counting_down (input (5 ∷ []) [])) ≡ Some 84 }
    ensures streamed { cost_in (streamed 2 8) (outer_timing (0 ∷ 1 ∷ []) (0 ∷ 0 ∷ []) ∷ outer_timing [] [] ∷ inner_timing 1 1 ∷ inner_timing 5 5 ∷ inner_timing 8 8 ∷ inner_timing 2 2 ∷ []) 0 (meaning in_lanes 0 (streamed 2 8) (input [] [])) ≡ Some 134 }
    ensures copied { cost_in (copied 64 16) (outer_timing (0 ∷ []) (0 ∷ []) ∷ outer_timing (0 ∷ 1 ∷ []) (0 ∷ 0 ∷ []) ∷ []) 0 (meaning in_lanes 0 (copied 64 16) (input [] (numbers_below 64 ∷ replicate 64 0 ∷ []))) ≡ Some 107 }
    ensures copied_with_delays { cost_in (copied 64 16) (outer_timing (0 ∷ []) (0 ∷ []) ∷ outer_timing (0 ∷ 1 ∷ []) (0 ∷ 0 ∷ []) ∷ []) 1000 (meaning in_lanes 0 (copied 64 16) (input [] (numbers_below 64 ∷ replicate 64 0 ∷ []))) ≡ Some 5107 }
    ensures copied_in_one_slot { cost_in (copied 64 16) (outer_timing (0 ∷ []) (0 ∷ []) ∷ outer_timing (0 ∷ 0 ∷ []) (0 ∷ 0 ∷ []) ∷ []) 0 (meaning in_lanes 0 (copied 64 16) (input [] (numbers_below 64 ∷ replicate 64 0 ∷ []))) ≡ Some 163 }
    ensures copied_at_once { cost_in (copied_at_once 64) (outer_timing (0 ∷ 1 ∷ []) (0 ∷ 0 ∷ []) ∷ []) 0 (meaning in_lanes 0 (copied_at_once 64) (input [] (numbers_below 64 ∷ replicate 64 0 ∷ []))) ≡ Some 140 }
    ensures bursts_with_delays { cost_in (copied_at_once 64) (outer_timing (0 ∷ 1 ∷ []) (0 ∷ 0 ∷ []) ∷ []) 10 (meaning in_lanes 0 (copied_at_once 64) (input [] (numbers_below 64 ∷ replicate 64 0 ∷ []))) ≡ Some 220 }
    ensures gathered { cost_in gathered (outer_timing (0 ∷ 1 ∷ 2 ∷ []) (0 ∷ 0 ∷ 0 ∷ []) ∷ []) 10 (meaning in_lanes 0 gathered (input [] (replicate 8 5 ∷ (3 ∷ 0 ∷ 7 ∷ 7 ∷ []) ∷ replicate 8 0 ∷ []))) ≡ Some 60 }
    ensures masked_lanes { cost_in (stores_in_lanes 3) (outer_timing (0 ∷ []) (0 ∷ []) ∷ outer_timing (0 ∷ 1 ∷ 0 ∷ 1 ∷ []) (0 ∷ 0 ∷ 1 ∷ 0 ∷ []) ∷ inner_timing 1 1 ∷ no_timing ∷ inner_timing 1 1 ∷ []) 0 (meaning in_lanes 0 (stores_in_lanes 3) (input [] (replicate 5 9 ∷ []))) ≡ Some 31 }
    ensures wide_at_once { sparse_cost sum_core (timed []) 3 WideLoad (wide_timing true) (lanes_shape (20 ∷ 4 ∷ [])) ≡ 32 }
    ensures wide_in_a_chain { sparse_cost sum_core (timed []) 3 WideLoad (wide_timing false) (lanes_shape (20 ∷ 4 ∷ [])) ≡ 43 }
{}

/// What happens in two runs, in the order of the text: the number of the operation or transfer, the memory, the indices and
/// the act.
pub fn worked_events()
    ensures sum { acts_in sum_core (meaning in_lanes 0 sum_core (input (4 ∷ []) [])) ≡ Some ((0, 0, [], reads 4) ∷ (3, 1, [], writes 7) ∷ []) }
    ensures copied { acts_in (copied 2 1) (meaning in_lanes 0 (copied 2 1) (input [] ((5 ∷ 6 ∷ []) ∷ (0 ∷ 0 ∷ []) ∷ []))) ≡ Some (
        (6, 1, 0 ∷ [], reads 5) ∷ (6, 0, 0 ∷ [], writes 5) ∷ (11, 0, 0 ∷ [], reads 5) ∷ (11, 2, 0 ∷ [], writes 5) ∷
        (6, 1, 1 ∷ [], reads 6) ∷ (6, 0, 0 ∷ [], writes 6) ∷ (11, 0, 0 ∷ [], reads 6) ∷ (11, 2, 1 ∷ [], writes 6) ∷ []) }
{}

/// Forms and meets that hold in runs, and others that don't.
pub fn worked_meets()
    ensures histogram_forms { held_in histogram (histogram_forms (pos 1)) (input [] ((0 ∷ 1 ∷ 1 ∷ 3 ∷ 1 ∷ 0 ∷ 2 ∷ 1 ∷ []) ∷ replicate 4 0 ∷ [])) (meaning in_lanes 0 histogram (input [] ((0 ∷ 1 ∷ 1 ∷ 3 ∷ 1 ∷ 0 ∷ 2 ∷ 1 ∷ []) ∷ replicate 4 0 ∷ []))) ≡ Some true }
    ensures wrong_coefficient { held_in histogram (histogram_forms (pos 2)) (input [] ((0 ∷ 1 ∷ 1 ∷ 3 ∷ 1 ∷ 0 ∷ 2 ∷ 1 ∷ []) ∷ replicate 4 0 ∷ [])) (meaning in_lanes 0 histogram (input [] ((0 ∷ 1 ∷ 1 ∷ 3 ∷ 1 ∷ 0 ∷ 2 ∷ 1 ∷ []) ∷ replicate 4 0 ∷ []))) ≡ Some false }
    ensures squares_forms { held_in squares_in_lanes (squares_forms (pos 3)) (input [] (replicate 10 0 ∷ [])) (meaning in_lanes 0 squares_in_lanes (input [] (replicate 10 0 ∷ []))) ≡ Some true }
    ensures wrong_lane { held_in squares_in_lanes (squares_forms (pos 4)) (input [] (replicate 10 0 ∷ [])) (meaning in_lanes 0 squares_in_lanes (input [] (replicate 10 0 ∷ []))) ≡ Some false }
    ensures symbol { held_in shifted (shifted_forms (Some 0)) (input [] []) (meaning in_lanes 0 shifted (input [] [])) ≡ Some true }
    ensures no_symbol { held_in shifted (shifted_forms None) (input [] []) (meaning in_lanes 0 shifted (input [] [])) ≡ Some false }
    ensures histogram_meets { met_in histogram (histogram_meets 1) (meaning in_lanes 0 histogram (input [] ((0 ∷ 1 ∷ 1 ∷ 3 ∷ 1 ∷ 0 ∷ 2 ∷ 1 ∷ []) ∷ replicate 4 0 ∷ []))) ≡ Some true }
    ensures too_far { met_in histogram (histogram_meets 2) (meaning in_lanes 0 histogram (input [] ((0 ∷ 1 ∷ 1 ∷ 3 ∷ 1 ∷ 0 ∷ 2 ∷ 1 ∷ []) ∷ replicate 4 0 ∷ []))) ≡ Some false }
    ensures squares_meets { met_in squares_in_lanes squares_meets (meaning in_lanes 0 squares_in_lanes (input [] (replicate 10 0 ∷ []))) ≡ Some true }
    ensures stores_meets { met_in (stores_in_lanes 4) (stores_meets 1) (meaning in_lanes 0 (stores_in_lanes 4) (input [] (replicate 5 9 ∷ []))) ≡ Some true }
    ensures stores_too_far { met_in (stores_in_lanes 4) (stores_meets 2) (meaning in_lanes 0 (stores_in_lanes 4) (input [] (replicate 5 9 ∷ []))) ≡ Some false }
{}
