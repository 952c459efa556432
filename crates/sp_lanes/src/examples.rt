//! Worked cores and what they become. Each function does nothing: what it ensures are cores that were written by hand, and
//! the ends of cores, which were worked out by other means.

ghost use Rattle.std.specs.Prelude.{◌≡◌, [], ◌∷◌, None, Some, replicate};
ghost use Rattle.sp_core.specs.Elements.{numbers_below};
ghost use Rattle.sp_core.specs.ExampleForms.{input, results};
ghost use Rattle.sp_core.specs.ExampleLanes.{squares_in_lanes, dot_product_in_lanes, stores_in_lanes};
ghost use Rattle.sp_core.specs.ExampleLoops as loops;
ghost use Rattle.sp_core.specs.ExampleTransfers as transfers;
ghost use Rattle.sp_core.specs.Invariant.{wrong_place};
ghost use Rattle.sp_core.specs.Meaning.{meaning};
ghost use Rattle.sp_core.specs.Scope.{in_lanes};
ghost use Rattle.sp_lanes.specs.Examples.{one_more, one_more_in_lanes, shared_reads, shared_reads_in_lanes, fixed_reduced, fixed_reduced_in_lanes, fixed_folded, fixed_folded_in_lanes, memory_reduced_by_two, memory_reduced_in_lanes, nested, nested_in_lanes, numbered_anew, machines, machines_in_lanes};
ghost use Rattle.sp_lanes.specs.Unrolled.{unrolled};

/// The cores in lanes are those that the rules give.
pub fn worked_lanes()
    ensures squares { unrolled transfers.squares ≡ squares_in_lanes }
    ensures dot_product { unrolled transfers.dot_product ≡ dot_product_in_lanes }
    ensures stores { unrolled transfers.overlapping_stores ≡ stores_in_lanes 4 }
    ensures one_more { unrolled (one_more 4 4 16) ≡ one_more_in_lanes 4 4 16 }
    ensures shared_reads { unrolled shared_reads ≡ shared_reads_in_lanes }
    ensures fixed_reduced { unrolled fixed_reduced ≡ fixed_reduced_in_lanes }
    ensures fixed_folded { unrolled fixed_folded ≡ fixed_folded_in_lanes }
    ensures memory_reduced { unrolled memory_reduced_by_two ≡ memory_reduced_in_lanes }
    ensures nested { unrolled nested ≡ nested_in_lanes }
    ensures machines { unrolled machines ≡ machines_in_lanes }
{}

/// A core whose controllers have one lane each stays as it is.
pub fn worked_single_lanes()
    ensures copied { unrolled (transfers.copied 64 16) ≡ transfers.copied 64 16 }
    ensures line_filter_root { unrolled (unrolled (transfers.line_filter 5)) ≡ unrolled (transfers.line_filter 5) }
    ensures counting_down { unrolled loops.counting_down ≡ loops.counting_down }
    ensures register_between { unrolled loops.register_between ≡ loops.register_between }
{}

/// In lanes they end as the cores do plainly.
pub fn worked_meanings()
    ensures one_behind { results (meaning in_lanes 0 (unrolled (one_more 1 1 8)) (input [] (replicate 8 9 ∷ []))) ≡ Some ([], (numbers_below 8 ∷ [])) }
    ensures four_behind { results (meaning in_lanes 0 (unrolled (one_more 4 4 16)) (input [] (replicate 16 9 ∷ []))) ≡ Some ([], ((0 ∷ 0 ∷ 0 ∷ 0 ∷ 1 ∷ 1 ∷ 1 ∷ 1 ∷ 2 ∷ 2 ∷ 2 ∷ 2 ∷ 3 ∷ 3 ∷ 3 ∷ 3 ∷ []) ∷ [])) }
    ensures shared_reads { results (meaning in_lanes 0 (unrolled shared_reads) (input (5 ∷ []) (replicate 4 9 ∷ []))) ≡ Some ([], (replicate 4 7 ∷ [])) }
    ensures fixed_reduced { results (meaning in_lanes 0 (unrolled fixed_reduced) (input [] [])) ≡ Some ((2 ∷ []), []) }
    ensures fixed_folded { results (meaning in_lanes 0 (unrolled fixed_folded) (input [] [])) ≡ Some ((2 ∷ []), []) }
    ensures memory_reduced { results (meaning in_lanes 0 (unrolled memory_reduced_by_two) (input [] (replicate 2 9 ∷ []))) ≡ Some ([], ((30 ∷ 33 ∷ []) ∷ [])) }
    ensures nested { results (meaning in_lanes 0 (unrolled nested) (input [] [])) ≡ Some ((6 ∷ []), []) }
    ensures machines { results (meaning in_lanes 6 (unrolled machines) (input [] [])) ≡ Some ([], []) }
{}

/// They break no rule of cores.
pub fn worked_cores_are_right()
    ensures one_more { wrong_place (unrolled (one_more 4 4 16)) ≡ None }
    ensures shared_reads { wrong_place (unrolled shared_reads) ≡ None }
    ensures fixed_reduced { wrong_place (unrolled fixed_reduced) ≡ None }
    ensures memory_reduced { wrong_place (unrolled memory_reduced_by_two) ≡ None }
    ensures nested { wrong_place (unrolled nested) ≡ None }
    ensures machines { wrong_place (unrolled machines) ≡ None }
    ensures numbered_anew { wrong_place (unrolled numbered_anew) ≡ None }
{}
