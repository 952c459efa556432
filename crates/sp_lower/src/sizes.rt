//! How many words the DRAMs of a core have. The function does nothing: what it ensures is the law.

ghost use Rattle.sp_core.specs.PlainCore.{PlainCore};
ghost use Rattle.sp_lower.specs.Sizes.{DramsKeepSizes};

use sp_contents::{runs_are_allowed, runs_are_inside};
use sp_core::runs_are_replayed;
use sp_stored_cores::first_words_given;

/// A run of a core leaves in each DRAM as many words as it has.
pub fn drams_keep_sizes()
    ensures { (core : PlainCore) → DramsKeepSizes core }
{
    first_words_given();
    runs_are_allowed();
    runs_are_inside();
    runs_are_replayed();
}
