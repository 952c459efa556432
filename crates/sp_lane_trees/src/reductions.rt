//! A law of controllers with stages that combine in several lanes. The function does nothing: what it ensures is the law.

ghost use Rattle.sp_core.specs.PlainCore.{PlainCore};
ghost use Rattle.sp_lane_trees.specs.ReductionsLaws.{ReductionsGo};

use sp_fitting::{lists_fit, nodes_fit, stores_fit};
use sp_lane_groups::places_have_room;
use sp_words::{operators_associate, operators_give_words};

/// A controller whose body has stages and several lanes, and whose last stage combines a word, does in lanes what it does in the
/// core, where its other stages do in each lane.
pub fn reductions_go()
    ensures { (core : PlainCore) → ReductionsGo core }
{
    lists_fit();
    nodes_fit();
    stores_fit();
    places_have_room();
    operators_associate();
    operators_give_words();
}
