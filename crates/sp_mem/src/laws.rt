//! Laws of memories. A law is a function whose contract is the law, and whose body is empty.

ghost use Rattle.sp_mem.specs.Laws.{CopyLaws};

/// What is done to a copy of a register in a cycle: the last write's word stands, else the first word where it is made fresh,
/// and else it keeps its own.
pub fn words_of_copies()
    ensures { CopyLaws }
{}
