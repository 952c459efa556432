//! Laws of whole programs. Each function does nothing: what it ensures is the law.

ghost use Rattle.sp_tree.specs.Invariant.{IsProgram};
ghost use Rattle.sp_tree.specs.PlainProgram.{PlainProgram};
ghost use Rattle.sp_outcomes.specs.Laws.{IsProgramFollowed};

/// Where a program ends, its core, read plainly, ends with the same words, and counts as much.
pub fn programs_are_followed()
    ensures { (p : PlainProgram) → IsProgram p → IsProgramFollowed p }
{}
