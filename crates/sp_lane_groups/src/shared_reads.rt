//! Laws of reads that stand once. Each function does nothing: what it ensures is the law.

ghost use Rattle.sp_core.specs.PlainCore.{PlainCore};
ghost use Rattle.sp_lane_groups.specs.SharedLaws.{SharedReadsStand, SharedWordsAgree};

/// A read that stands once for all lanes gives the same word in each iteration of a group.
pub fn shared_words_agree()
    ensures { (core : PlainCore) → SharedWordsAgree core }
{}

/// For the body of a later lane the reads that stand once do stand where they do in lane 0, each with the word that it gives.
pub fn shared_reads_stand()
    ensures { (core : PlainCore) → SharedReadsStand core }
{}
