//! Worked trees. The function does nothing: what it ensures are the first refusals of trees, which were worked out
//! by hand from the rules.

ghost use Rattle.std.specs.Prelude.{◌≡◌, [], ◌∷◌, codes, Some, None, true, false};
ghost use Rattle.sp_words.specs.declared.kind.BinOp.TheVariants as binary;
ghost use Rattle.sp_words.specs.declared.types.Ty.TheVariants.{Bit};
ghost use Rattle.sp_words.specs.Types.{int_type};
ghost use Rattle.sp_reader.specs.declared.syntax.expression.SynUn.TheVariants.{Bang};
ghost use Rattle.sp_reader.specs.PlainTree.{expr, mux, one, cast};
ghost use Rattle.sp_reader.specs.PlainStatement.{stmt, line_buffer};
ghost use Rattle.sp_types.specs.declared.refusal.Found.TheVariants.{Typed, Literal};
ghost use Rattle.sp_types.specs.declared.refusal.Rule.TheVariants.{UnknownName, Twice, Misused, Rank, TypeClash, ParPlace};
ghost use Rattle.sp_types.specs.ExampleForms.{ident, int, bit, fixed, num, minus, point, var, yes, bin, at, sram_of, reg_of};
ghost use Rattle.sp_types.specs.First.{refused};
ghost use Rattle.sp_types.specs.Statements.{first_refusal};
ghost use Rattle.sp_types.specs.Worked.{clash_at, no_word_at, given_twice, written, two_indices, first_counter_in_lanes, reduced_by, taken_in_a_bound, wide_load, gathered_in_two, part_of};

/// First refusals.
pub fn worked_refusals()
    ensures given_twice { first_refusal given_twice ≡ Some (refused 24 Twice) }
    ensures unknown { first_refusal (written (var 34 (codes "z"))) ≡ Some (refused 34 UnknownName) }
    ensures other_type { first_refusal (written (yes 34)) ≡ Some (clash_at 34) }
    ensures output_that_is_read { first_refusal (written (var 34 (codes "y"))) ≡ Some (refused 34 Misused) }
    ensures two_indices { first_refusal two_indices ≡ Some (refused 56 (Rank 1 2)) }
    ensures first_counter_in_lanes { first_refusal first_counter_in_lanes ≡ Some (refused 44 ParPlace) }
    ensures choice { first_refusal (written (expr 34 (mux (yes 38) (num 44 1) (num 47 2)))) ≡ None }
    ensures greatest_word { first_refusal (written (num 34 2147483647)) ≡ None }
    ensures past_the_greatest_word { first_refusal (written (num 34 2147483648)) ≡ Some (no_word_at 34) }
    ensures least_word { first_refusal (written (minus 34 2147483648)) ≡ None }
    ensures fraction_of_zero { first_refusal (written (point 34 1 (0 ∷ []))) ≡ None }
    ensures fraction_that_is_lost { first_refusal (written (point 34 1 (5 ∷ []))) ≡ Some (no_word_at 34) }
    ensures fraction_that_is_cast { first_refusal (written (expr 34 (cast (expr 34 (cast (point 34 1 (5 ∷ [])) (fixed 40 true 8 8))) int))) ≡ None }
    ensures no_type { first_refusal (written (expr 34 (cast (num 34 1) (fixed 40 true 60 8)))) ≡ Some (no_word_at 40) }
    ensures bit_in_a_sum { first_refusal (written (bin binary.Add 34 (num 34 1) (yes 38))) ≡ Some (clash_at 34) }
    ensures literal_in_a_test { first_refusal (written (expr 34 (mux (num 38 1) (num 44 1) (num 47 2)))) ≡ Some (refused 38 (TypeClash Bit Literal)) }
    ensures compared_bits { first_refusal (written (expr 34 (mux (bin binary.Lt 38 (yes 38) (yes 45)) (num 51 1) (num 54 2)))) ≡ Some (clash_at 38) }
    ensures equal_bits { first_refusal (written (expr 34 (mux (bin binary.Eq 38 (yes 38) (yes 46)) (num 51 1) (num 54 2)))) ≡ None }
    ensures negated_number { first_refusal (written (expr 34 (mux (expr 38 (one Bang (num 39 1))) (num 44 1) (num 47 2)))) ≡ Some (refused 39 (TypeClash Bit Literal)) }
    ensures counter_summed { first_refusal (reduced_by (reg_of 33 (codes "r") int) (var 70 (codes "i"))) ≡ None }
    ensures accumulator_in_its_body { first_refusal (reduced_by (reg_of 33 (codes "r") int) (bin binary.Add 70 (var 70 (codes "i")) (var 74 (codes "r")))) ≡ Some (refused 74 Misused) }
    ensures accumulator_of_bits { first_refusal (reduced_by (reg_of 33 (codes "r") bit) (yes 70)) ≡ Some (refused 900 Misused) }
    ensures accumulator_of_another_kind { first_refusal (reduced_by (sram_of 33 (codes "r") (2 ∷ [])) (var 70 (codes "i"))) ≡ Some (refused 55 Misused) }
    ensures taken_in_a_bound { first_refusal taken_in_a_bound ≡ Some (refused 58 Misused) }
    ensures wide_load { first_refusal (wide_load (sram_of 40 (codes "m") (8 ∷ []))) ≡ None }
    ensures wide_row { first_refusal (wide_load (stmt 40 (line_buffer (ident 44 (codes "m")) int 2 8))) ≡ Some (refused 74 ParPlace) }
    ensures range_of_two { first_refusal (wide_load (sram_of 40 (codes "m") (4 ∷ 2 ∷ []))) ≡ Some (refused 60 (Rank 2 1)) }
    ensures gathered_in_two { first_refusal gathered_in_two ≡ Some (refused 90 (Rank 1 2)) }
    ensures part_of_the_body { first_refusal (part_of [] (sram_of 110 (codes "p") (2 ∷ []) ∷ [])) ≡ None }
    ensures part_from_outside { first_refusal (part_of (sram_of 50 (codes "p") (2 ∷ []) ∷ []) []) ≡ Some (refused 130 Misused) }
    ensures part_of_other_dimensions { first_refusal (part_of [] (sram_of 110 (codes "p") (3 ∷ []) ∷ [])) ≡ Some (refused 130 Misused) }
{}
