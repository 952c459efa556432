//! Laws of turns. Each function does nothing: what it ensures is the law.

ghost use Rattle.sp_tree.specs.Invariant.{IsProgram};
ghost use Rattle.sp_tree.specs.PlainProgram.{PlainProgram};
ghost use Rattle.sp_turns.specs.Laws.{ProgramRoundsWithinTurns};

/// Where a program ends, its core, read plainly, goes around no oftener than the program takes turns.
pub fn rounds_are_within_turns()
    ensures { (p : PlainProgram) → IsProgram p → ProgramRoundsWithinTurns p }
{}
