//! What the DRAMs of a core have first. The function does nothing: what it ensures is the law.

ghost use Rattle.sp_core.specs.PlainCore.{PlainCore};
ghost use Rattle.sp_stored_cores.specs.Outside.{FirstWordsGiven};

/// The words that DRAMs have first are those of the input.
pub fn first_words_given()
    ensures { (core : PlainCore) → FirstWordsGiven core }
{}
