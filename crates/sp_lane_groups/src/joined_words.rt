//! A law of words of lanes that are joined. The function does nothing: what it ensures is the law.

ghost use Rattle.sp_core.specs.PlainCore.{PlainCore};
ghost use Rattle.sp_lane_groups.specs.JoinedLaws.{JoinedWordsStand};

use sp_words::{operators_associate, operators_give_words};

/// A tree of words gives the same word as they do in order, by an operator that is balanced.
pub fn joined_words_stand()
    ensures { (core : PlainCore) → JoinedWordsStand core }
{
    operators_associate();
    operators_give_words();
}
