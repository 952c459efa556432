//! A law of the cores of programs. The function does nothing: what it ensures is the law.

ghost use Rattle.sp_tree.specs.Invariant.{IsProgram};
ghost use Rattle.sp_tree.specs.PlainProgram.{PlainProgram};
ghost use Rattle.sp_lane_cores.specs.EndingsLaws.{ProgramEnds};

/// In the core of a program no memory of a body is one of its combination, whose accumulator and whose register of whether it has
/// begun are two.
pub fn programs_end()
    ensures { (p : PlainProgram) → IsProgram p → ProgramEnds p }
{}
