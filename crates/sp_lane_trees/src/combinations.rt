//! A law of inner bodies that combine. The function does nothing: what it ensures is the law.

ghost use Rattle.sp_core.specs.PlainCore.{PlainCore};
ghost use Rattle.sp_lane_trees.specs.CombinationsLaws.{CombinedInnersGo};

use sp_fitting::{lists_fit, stores_fit};
use sp_lane_groups::places_have_room;
use sp_words::{operators_associate, operators_give_words};

/// An inner body that ends in a combination does in lanes what it does in the core, whether the words of lanes are joined in a tree
/// or meet the accumulator in order.
pub fn combined_inners_go()
    ensures { (core : PlainCore) → CombinedInnersGo core }
{
    lists_fit();
    stores_fit();
    places_have_room();
    operators_associate();
    operators_give_words();
}
