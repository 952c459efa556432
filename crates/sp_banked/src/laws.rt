//! Laws of memories in banks. A law is a function whose contract is the law, and whose body is empty.

ghost use Rattle.sp_banked.specs.Examples.{WorkedMemory};
ghost use Rattle.sp_banked.specs.Laws.{BankedLaws};

/// As long as accesses that are enabled in a cycle at one copy and one bank are at one element, and inside, each copy of the
/// memory holds an array, the same in each duplicate, and each reader has the word of its element two cycles later.
pub fn memories_are_arrays()
    ensures { BankedLaws }
{}

/// Where the elements of a small memory stand, and what two writes of one cycle leave.
pub fn worked_memory()
    ensures { WorkedMemory }
{}
