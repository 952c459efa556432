//! A law of the cores of programs. The function does nothing: what it ensures is the law.

ghost use Rattle.sp_tree.specs.Invariant.{IsProgram};
ghost use Rattle.sp_tree.specs.PlainProgram.{PlainProgram};
ghost use Rattle.sp_sugar.specs.Core.{core_of};
ghost use Rattle.sp_proper.specs.Laws.{AreStreamsProper};

/// Each stream block of the core of a program is proper: its stages may run at once, joined by FIFOs.
pub fn stream_blocks_are_proper()
    ensures { (p : PlainProgram) → IsProgram p → AreStreamsProper (core_of p) }
{}
