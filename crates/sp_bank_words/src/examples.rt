//! Worked accesses. Each function does nothing: what it ensures was worked out by hand.

ghost use Rattle.sp_bank_words.specs.Examples.{WorkedAccesses, read_in, written_in};
ghost use Rattle.sp_bank_words.specs.Layouts.{banking_for, one_bank};
ghost use Rattle.sp_bank_words.specs.Numbers.{accesses_of, changes_of};
ghost use Rattle.sp_bank.specs.Places.{bank as bank_number, offset};
ghost use Rattle.sp_part_runs.specs.ActsEntries.{index_of};
ghost use Rattle.sp_core.specs.Elements.{are_inside, index_value, numbers_below};
ghost use Rattle.sp_core.specs.ExampleForms.{input};
ghost use Rattle.sp_core.specs.Meaning.{meaning};
ghost use Rattle.sp_core.specs.Scope.{in_lanes};
ghost use Rattle.sp_machine.specs.Examples.{always};
ghost use Rattle.sp_plan.specs.ExamplePlans.{banked};
ghost use Rattle.sp_core_ports.specs.UsedExamples.{two_readers, two_readers_plan};
ghost use Rattle.std.specs.Prelude.{[], ◌≡◌, ◌∷◌, None, Some, false, map};

/// In one bank an element of two by three words stands at its row-major place.
pub fn worked_layout()
    ensures bank { bank_number (banking_for None 2) (1 ∷ 2 ∷ []) ≡ 0 }
    ensures place { offset (one_bank 2) (2 ∷ 3 ∷ []) (1 ∷ 2 ∷ []) ≡ 5 }
{}

/// The writes of a load, and the reads of two stages, in a run: by their cycles and the numbers of the load and of the operations.
pub fn worked_run()
    ensures writes { written_in two_readers (two_readers_plan (banked 2 1 (1 ∷ []) 1 2)) (always 0) 0 (meaning in_lanes 0 two_readers (input [] (numbers_below 4 ∷ []))) ≡ Some (
        record { cycle = 5; number = 2 } ∷ record { cycle = 6; number = 2 } ∷ record { cycle = 7; number = 2 } ∷ record { cycle = 8; number = 2 } ∷ []) }
    ensures reads { read_in two_readers (two_readers_plan (banked 2 1 (1 ∷ []) 1 2)) (always 0) 0 (meaning in_lanes 0 two_readers (input [] (numbers_below 4 ∷ []))) ≡ Some (
        record { cycle = 13; number = 6 } ∷ record { cycle = 19; number = 9 } ∷ record { cycle = 19; number = 6 } ∷ record { cycle = 25; number = 9 } ∷ []) }
{}

/// The numbers of what touches and of what changes that memory in the core.
pub fn worked_numbers()
    ensures accesses { accesses_of two_readers 0 ≡ 2 ∷ 6 ∷ 9 ∷ [] }
    ensures changes { changes_of two_readers 0 ≡ 2 ∷ [] }
    ensures words { changes_of two_readers 1 ≡ 7 ∷ [] }
{}

/// A word with a sign, which is no index of an element, tells the index 0, as the word 0 does.
pub fn worked_index()
    ensures signed { index_of 4294967295 ≡ 0 }
    ensures zero { index_of 0 ≡ 0 }
    ensures none { are_inside (4 ∷ []) (map index_value (4294967295 ∷ [])) ≡ false }
{}

/// A write and a read whose circuits act in time, and the word that the one leaves and the other finds.
pub fn worked_accesses()
    ensures { WorkedAccesses }
{}
