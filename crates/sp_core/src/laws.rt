//! Laws of cores. Each function does nothing: what it ensures is the law.

ghost use Rattle.std.specs.Prelude.{ℕ, Bool};
ghost use Rattle.sp_core.specs.Footprint.{NodeNames};
ghost use Rattle.sp_core.specs.Invariant.{IsShown};
ghost use Rattle.sp_core.specs.Laws.{TurnsSuffice, IsWithin, IsReplayed};
ghost use Rattle.sp_core.specs.PlainCore.{PlainNode, PlainCore};
ghost use Rattle.sp_core.specs.Scope.{Reading, Scope};
ghost use Rattle.sp_core.specs.Sequential.{run};
ghost use Rattle.sp_core.specs.Store.{Store};

/// Where a core breaks a rule, there is a first node that shows it, and else there is none.
pub fn wrong_cores_are_shown()
    ensures { (core : PlainCore) → IsShown core }
{}

/// A run that ends, or that stops, does the same with more turns.
pub fn turns_suffice()
    ensures { (core : PlainCore) (reading : Reading) (node : PlainNode) (scope : Scope) (s : Store) → TurnsSuffice core reading node scope s }
{}

/// A run changes and looks at only the memories that its nodes name, DRAMs among them. `is` is a test that all of these
/// pass.
pub fn runs_are_footprints()
    ensures { (is : ℕ → Bool) (core : PlainCore) (reading : Reading) (turns : ℕ) (node : PlainNode) (scope : Scope) → NodeNames core is node → IsWithin is (run core reading turns node scope) }
{}

/// What happens in a run that ends, taken from its history alone and done one after the other from the store in which the
/// run begins: each read finds its word, each word that is taken is the oldest, each word that is put finds room; and it
/// leaves what the run leaves.
pub fn runs_are_replayed()
    ensures { (core : PlainCore) (reading : Reading) (node : PlainNode) → IsReplayed core reading node }
{}
