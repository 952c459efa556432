//! Ports of worked runs. Each function does nothing: what it ensures was worked out by hand.

ghost use Rattle.sp_core_ports.specs.UsedExamples.{ends_in, enters_at, leaves_at, queued, queued_plan, reads_at, two_readers, two_readers_plan, used_in, writes_at};
ghost use Rattle.sp_core_ports.specs.UsedQueues.{is_one_end};
ghost use Rattle.sp_core_ports.specs.UsedReaders.{duplicate_at, readers_of};
ghost use Rattle.sp_core.specs.Elements.{numbers_below};
ghost use Rattle.sp_core.specs.Events.{puts, takes};
ghost use Rattle.sp_core.specs.ExampleForms.{input};
ghost use Rattle.sp_core.specs.ExampleTransfers.{copied};
ghost use Rattle.sp_core.specs.Meaning.{meaning};
ghost use Rattle.sp_core.specs.Scope.{in_lanes};
ghost use Rattle.sp_machine.specs.Examples.{always, copied_plan};
ghost use Rattle.sp_plan.specs.ExamplePlans.{banked, in_turns};
ghost use Rattle.std.specs.Prelude.{[], ◌≡◌, ◌∷◌, Some, false, replicate, true};

/// The readers of a memory that two stages read, whose operations have the numbers 5 to 7 and 8 to 10, and their duplicates.
pub fn worked_readers()
    ensures readers { readers_of two_readers 0 ≡ record { from = 5; until = 8 } ∷ record { from = 8; until = 11 } ∷ [] }
    ensures nobody { readers_of two_readers 1 ≡ [] }
    ensures first { duplicate_at two_readers (two_readers_plan (in_turns 1 2)) 0 6 ≡ 0 }
    ensures second { duplicate_at two_readers (two_readers_plan (in_turns 1 2)) 0 9 ≡ 1 }
    ensures shared { duplicate_at two_readers (two_readers_plan (in_turns 1 1)) 0 9 ≡ 0 }
{}

/// Which ports runs use, and when: a load and a store with two copies between them; two stages that read one memory in one cycle,
/// each its own duplicate, and with one duplicate alone the same port of its one bank in cycle 19.
pub fn worked_ports()
    ensures two_copies { used_in (copied 4 2) (copied_plan (0 ∷ 1 ∷ []) 2) (always 0) (meaning in_lanes 0 (copied 4 2) (input [] (numbers_below 4 ∷ replicate 4 9 ∷ []))) ≡ Some (
        writes_at 7 0 0 0 ∷ writes_at 8 0 0 0 ∷ reads_at 10 0 0 0 0 ∷ reads_at 11 0 0 0 0 ∷ writes_at 13 0 1 0 ∷ writes_at 14 0 1 0 ∷ reads_at 16 0 1 0 0 ∷ reads_at 17 0 1 0 0 ∷ []) }
    ensures two_duplicates { used_in two_readers (two_readers_plan (banked 2 1 (1 ∷ []) 1 2)) (always 0) (meaning in_lanes 0 two_readers (input [] (numbers_below 4 ∷ []))) ≡ Some (
        writes_at 5 0 0 0 ∷ writes_at 6 0 0 1 ∷ writes_at 7 0 0 0 ∷ writes_at 8 0 0 1 ∷
        reads_at 13 0 0 0 0 ∷ writes_at 15 1 0 0 ∷ reads_at 19 0 0 1 0 ∷ writes_at 21 2 0 0 ∷
        reads_at 19 0 0 0 1 ∷ writes_at 21 1 0 0 ∷ reads_at 25 0 0 1 1 ∷ writes_at 27 2 0 0 ∷ []) }
    ensures one_duplicate { used_in two_readers (two_readers_plan (in_turns 1 1)) (always 0) (meaning in_lanes 0 two_readers (input [] (numbers_below 4 ∷ []))) ≡ Some (
        writes_at 5 0 0 0 ∷ writes_at 6 0 0 0 ∷ writes_at 7 0 0 0 ∷ writes_at 8 0 0 0 ∷
        reads_at 13 0 0 0 0 ∷ writes_at 15 1 0 0 ∷ reads_at 19 0 0 0 0 ∷ writes_at 21 2 0 0 ∷
        reads_at 19 0 0 0 0 ∷ writes_at 21 1 0 0 ∷ reads_at 25 0 0 0 0 ∷ writes_at 27 2 0 0 ∷ []) }
{}

/// When words enter and leave a FIFO between two stages of a loop, which are one chain.
pub fn worked_ends()
    ensures one_end { is_one_end (puts 1) (puts 2) ≡ true }
    ensures two_ends { is_one_end (puts 1) (takes 1) ≡ false }
    ensures in_turn { ends_in queued queued_plan (always 0) (meaning in_lanes 0 queued (input [] [])) ≡ Some (enters_at 5 0 0 ∷ leaves_at 8 0 0 ∷ enters_at 14 0 0 ∷ leaves_at 17 0 0 ∷ []) }
{}
