//! Ports that a plan has. The function does nothing: what it ensures was worked out by hand.

ghost use Rattle.sp_plan.specs.ExamplePlans.{banked};
ghost use Rattle.sp_core_ports.specs.BanksExamples.{read_port};
ghost use Rattle.sp_core_ports.specs.BanksLaws.{IsThere};
ghost use Rattle.sp_core_ports.specs.UsedExamples.{two_readers_plan};
ghost use Rattle.std.specs.Prelude.{[], ◌∷◌};

/// Of a memory with two banks, one copy and two duplicates: the last port, and ports of a bank, a duplicate and a copy that aren't
/// there.
pub fn worked_banks()
    ensures there { IsThere (two_readers_plan (banked 2 1 (1 ∷ []) 1 2)) (read_port 0 0 1 1) }
    ensures no_bank { IsThere (two_readers_plan (banked 2 1 (1 ∷ []) 1 2)) (read_port 0 0 1 2) → ⊥ }
    ensures no_duplicate { IsThere (two_readers_plan (banked 2 1 (1 ∷ []) 1 2)) (read_port 0 0 2 1) → ⊥ }
    ensures no_copy { IsThere (two_readers_plan (banked 2 1 (1 ∷ []) 1 2)) (read_port 0 1 1 1) → ⊥ }
{}
