//! Copies that a plan has. The function does nothing: what it ensures was worked out by hand.

ghost use Rattle.sp_core.specs.Events.{renews};
ghost use Rattle.sp_core.specs.ExampleTransfers.{copied};
ghost use Rattle.sp_machine.specs.Examples.{copied_plan};
ghost use Rattle.sp_core_ports.specs.CopiesLaws.{HasCopy};
ghost use Rattle.std.specs.Prelude.{[], ◌∷◌};

/// Where a plan has two copies of a memory, copy 1 is one and copy 2 is none; of a DRAM nothing is asked.
pub fn worked_copies()
    ensures second { HasCopy (copied 4 2) (copied_plan (0 ∷ 1 ∷ []) 2) 1 (renews 0) }
    ensures third { HasCopy (copied 4 2) (copied_plan (0 ∷ 1 ∷ []) 2) 2 (renews 0) → ⊥ }
    ensures dram { HasCopy (copied 4 2) (copied_plan (0 ∷ 1 ∷ []) 2) 2 (renews 1) }
{}
