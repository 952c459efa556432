//! A law of the words of lanes. The function does nothing: what it ensures is the law.

ghost use Rattle.sp_core.specs.PlainCore.{PlainCore};
ghost use Rattle.sp_lane_groups.specs.WordsLaws.{WordsStand};

/// After the lanes of a group the words of each iteration stand where the body of its lane has them.
pub fn words_stand()
    ensures { (core : PlainCore) → WordsStand core }
{}
