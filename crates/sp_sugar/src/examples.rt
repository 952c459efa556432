//! Worked programs and their cores. Each function does nothing: what it ensures are cores that were written by hand, and
//! the ends of cores, which were worked out by other means.

ghost use Rattle.std.specs.Prelude.{◌≡◌, [], ◌∷◌, replicate, Some, None};
ghost use Rattle.sp_core.specs.Elements.{numbers_below};
ghost use Rattle.sp_core.specs.ExampleForms.{input, results};
ghost use Rattle.sp_core.specs.ExampleLoops as loops;
ghost use Rattle.sp_core.specs.ExampleTransfers as transfers;
ghost use Rattle.sp_core.specs.Invariant.{wrong_place};
ghost use Rattle.sp_core.specs.Meaning.{meaning, failed, unfinished};
ghost use Rattle.sp_core.specs.Scope.{plainly};
ghost use Rattle.sp_sugar.specs.Core.{core_of};
ghost use Rattle.sp_sugar.specs.ExampleCores as cores;
ghost use Rattle.sp_sugar.specs.ExamplePrograms.{sum, dot_product, squares, histogram, register_between, counting_down, line_filter, overlapping_stores, queued, memory_reduced, mixed_stages, widely_copied, streamed, streamed_twice, crossing, early_slices, folded_matrix, declared_anew, reducing_machine};

/// The cores of worked programs are those that the rules give.
pub fn worked_cores()
    ensures sum { core_of sum ≡ loops.sum_core }
    ensures dot_product { core_of dot_product ≡ transfers.dot_product }
    ensures squares { core_of squares ≡ transfers.squares }
    ensures histogram { core_of histogram ≡ transfers.histogram }
    ensures register_between { core_of register_between ≡ loops.register_between }
    ensures counting_down { core_of counting_down ≡ cores.counting_down }
    ensures line_filter { core_of (line_filter 5) ≡ transfers.line_filter 5 }
    ensures overlapping_stores { core_of overlapping_stores ≡ transfers.overlapping_stores }
    ensures queued { core_of (queued 4) ≡ loops.queued 4 }
    ensures memory_reduced { core_of memory_reduced ≡ loops.memory_reduced }
    ensures mixed_stages { core_of mixed_stages ≡ cores.mixed_stages }
    ensures widely_copied { core_of widely_copied ≡ cores.widely_copied }
    ensures streamed { core_of streamed ≡ loops.streamed 2 8 }
    ensures streamed_twice { core_of streamed_twice ≡ cores.streamed_twice }
    ensures crossing { core_of crossing ≡ cores.crossing }
    ensures early_slices { core_of early_slices ≡ cores.early_slices }
    ensures folded_matrix { core_of folded_matrix ≡ cores.folded_matrix }
    ensures declared_anew { core_of declared_anew ≡ cores.declared_anew }
    ensures reducing_machine { core_of reducing_machine ≡ cores.reducing_machine }
{}

/// They end as the programs do.
pub fn worked_meanings()
    ensures sum { results (meaning plainly 0 (core_of sum) (input (4 ∷ []) [])) ≡ Some ((7 ∷ []), []) }
    ensures dot_product { results (meaning plainly 0 (core_of dot_product) (input [] (numbers_below 64 ∷ replicate 64 1 ∷ []))) ≡ Some ((2016 ∷ []), (numbers_below 64 ∷ replicate 64 1 ∷ [])) }
    ensures histogram { results (meaning plainly 0 (core_of histogram) (input [] ((0 ∷ 1 ∷ 1 ∷ 3 ∷ 1 ∷ 0 ∷ 2 ∷ 1 ∷ []) ∷ replicate 4 0 ∷ []))) ≡ Some ([], ((0 ∷ 1 ∷ 1 ∷ 3 ∷ 1 ∷ 0 ∷ 2 ∷ 1 ∷ []) ∷ (2 ∷ 4 ∷ 1 ∷ 1 ∷ []) ∷ [])) }
    ensures register_between { results (meaning plainly 0 (core_of register_between) (input [] (replicate 4 0 ∷ []))) ≡ Some ([], ((10 ∷ 11 ∷ 12 ∷ 13 ∷ []) ∷ [])) }
    ensures no_turn_of_an_fsm { results (meaning plainly 0 (core_of counting_down) (input (0 ∷ []) [])) ≡ Some ((0 ∷ []), []) }
    ensures five_turns_of_an_fsm { results (meaning plainly 5 (core_of counting_down) (input (5 ∷ []) [])) ≡ Some ((15 ∷ []), []) }
    ensures line_filter { results (meaning plainly 0 (core_of (line_filter 5)) (input [] (numbers_below 20 ∷ replicate 6 0 ∷ []))) ≡ Some ([], (numbers_below 20 ∷ (54 ∷ 63 ∷ 72 ∷ 99 ∷ 108 ∷ 117 ∷ []) ∷ [])) }
    ensures narrow_line_filter { meaning plainly 0 (core_of (line_filter 4)) (input [] (numbers_below 20 ∷ replicate 6 0 ∷ [])) ≡ failed }
    ensures overlapping_stores { results (meaning plainly 0 (core_of overlapping_stores) (input [] (replicate 5 0 ∷ []))) ≡ Some ([], ((0 ∷ 1 ∷ 2 ∷ 3 ∷ 3 ∷ []) ∷ [])) }
    ensures four_of_four { results (meaning plainly 0 (core_of (queued 4)) (input [] (replicate 4 0 ∷ []))) ≡ Some ([], ((0 ∷ 1 ∷ 4 ∷ 9 ∷ []) ∷ [])) }
    ensures five_of_four { meaning plainly 0 (core_of (queued 5)) (input [] (replicate 4 0 ∷ [])) ≡ failed }
    ensures memory_reduced { results (meaning plainly 0 (core_of memory_reduced) (input [] ((0 ∷ 0 ∷ []) ∷ []))) ≡ Some ([], ((30 ∷ 33 ∷ []) ∷ [])) }
    ensures mixed_stages { results (meaning plainly 0 (core_of mixed_stages) (input [] ((1 ∷ 2 ∷ 3 ∷ 4 ∷ []) ∷ []))) ≡ Some ((52 ∷ []), ((1 ∷ 2 ∷ 3 ∷ 4 ∷ []) ∷ [])) }
    ensures streamed { results (meaning plainly 0 (core_of streamed) (input [] [])) ≡ Some ((56 ∷ []), []) }
    ensures streamed_twice { meaning plainly 0 (core_of streamed_twice) (input [] []) ≡ failed }
    ensures crossing { results (meaning plainly 0 (core_of crossing) (input (4 ∷ []) [])) ≡ Some ((14 ∷ 10 ∷ []), []) }
    ensures early_slices { results (meaning plainly 0 (core_of early_slices) (input [] (numbers_below 16 ∷ (3 ∷ 1 ∷ 0 ∷ 0 ∷ []) ∷ []))) ≡ Some ((13 ∷ []), (numbers_below 16 ∷ (3 ∷ 1 ∷ 0 ∷ 0 ∷ []) ∷ [])) }
    ensures folded_matrix { results (meaning plainly 0 (core_of folded_matrix) (input [] [])) ≡ Some ((24 ∷ []), []) }
    ensures declared_anew { results (meaning plainly 0 (core_of declared_anew) (input [] [])) ≡ Some ((40 ∷ []), []) }
    ensures reducing_machine { results (meaning plainly 1 (core_of reducing_machine) (input (2 ∷ []) [])) ≡ Some ((22 ∷ []), []) }
{}

/// They break no rule of cores.
pub fn worked_cores_are_right()
    ensures sum { wrong_place (core_of sum) ≡ None }
    ensures dot_product { wrong_place (core_of dot_product) ≡ None }
    ensures counting_down { wrong_place (core_of counting_down) ≡ None }
    ensures line_filter { wrong_place (core_of (line_filter 5)) ≡ None }
    ensures mixed_stages { wrong_place (core_of mixed_stages) ≡ None }
    ensures widely_copied { wrong_place (core_of widely_copied) ≡ None }
    ensures streamed { wrong_place (core_of streamed) ≡ None }
    ensures crossing { wrong_place (core_of crossing) ≡ None }
    ensures early_slices { wrong_place (core_of early_slices) ≡ None }
    ensures folded_matrix { wrong_place (core_of folded_matrix) ≡ None }
    ensures declared_anew { wrong_place (core_of declared_anew) ≡ None }
    ensures reducing_machine { wrong_place (core_of reducing_machine) ≡ None }
{}
