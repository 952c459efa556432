//! What a definition comes to. A law is a function whose contract is the law, and whose body is empty.
ghost use Rattle.std.specs.Prelude.{ℕ, List};
ghost use Rattle.sp_top.specs.Status.{words, setup_refused, read_fault, listing_refused, conflict, cycles_spent, stopped_at, turns_spent, too_long, unbuilt, source_refused};
ghost use Rattle.sp_setup.specs.Refusal.{Refusal};
ghost use Rattle.sp_top.specs.Commands.{NotRefused};

/// A call that ends with a refusal was refused.
pub fn refusals_refuse()
    ensures words { NotRefused words → ⊥ }
    ensures read_fault { NotRefused read_fault → ⊥ }
    ensures too_long { (name : List ℕ) → NotRefused (too_long name) → ⊥ }
    ensures setup_refused { (refusal : Refusal) → NotRefused (setup_refused refusal) → ⊥ }
    ensures listing_refused { (error : _) → NotRefused (listing_refused error) → ⊥ }
    ensures conflict { (cycle bank : ℕ) (port : _) → NotRefused (conflict cycle bank port) → ⊥ }
    ensures cycles_spent { (cycles : ℕ) → NotRefused (cycles_spent cycles) → ⊥ }
    ensures fault { (kind : _) (at : ℕ) → NotRefused (stopped_at kind at) → ⊥ }
    ensures turns_spent { (turns : ℕ) → NotRefused (turns_spent turns) → ⊥ }
    ensures source { (error : _) → NotRefused (source_refused error) → ⊥ }
    ensures unbuilt { (line : ℕ) → NotRefused (unbuilt line) → ⊥ }
{}
