//! A law of controllers with stages in several lanes. The function does nothing: what it ensures is the law.

ghost use Rattle.sp_core.specs.PlainCore.{PlainCore};
ghost use Rattle.sp_lane_trees.specs.StagesLaws.{StagesGo};

use sp_fitting::{lists_fit, nodes_fit};
use sp_lane_groups::places_have_room;

/// A controller whose body has stages and several lanes does in lanes what it does in the core, where its stages do in each lane
/// and none of them combines.
pub fn stages_go()
    ensures { (core : PlainCore) → StagesGo core }
{
    lists_fit();
    nodes_fit();
    places_have_room();
}
