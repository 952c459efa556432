//! Laws of the memories of lanes. Each function does nothing: what it ensures is the law.

ghost use Rattle.std.specs.Prelude.{ℕ, List};
ghost use Rattle.sp_core.specs.PlainCore.{PlainCore};
ghost use Rattle.sp_lane_rules.specs.CopiesLaws.{AreApart, AreCounted, AreDeclared, HaveOwners};
ghost use Rattle.sp_lane_rules.specs.CopiesRules.{KeepMemoryRules};

/// A memory has a copy for each lane in which its owner stands, and an argument or output has one.
pub fn copies_are_counted()
    ensures { (core : PlainCore) → AreCounted core }
{}

/// Each copy is declared as the memory that it stands for, and there are no memories but copies.
pub fn copies_are_declared()
    ensures { (core : PlainCore) → AreDeclared core }
{}

/// Two copies are two memories.
pub fn copies_are_apart()
    ensures { (order : List ℕ) → AreApart order }
{}

/// Each copy of a memory that has one owner has one owner.
pub fn copies_have_owners()
    ensures { (core : PlainCore) → HaveOwners core }
{}

/// The memories and ports of lanes keep the rules of cores, where those of the core do, no combination owns a memory, and
/// arguments and outputs stand in the program's text.
pub fn memories_keep_rules()
    ensures { (core : PlainCore) → KeepMemoryRules core }
{}
