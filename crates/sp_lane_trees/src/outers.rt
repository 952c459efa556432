//! Laws of controllers with stages. Each function does nothing: what it ensures is the law.

ghost use Rattle.sp_core.specs.PlainCore.{PlainCore};
ghost use Rattle.sp_lane_trees.specs.OutersLaws.{OutersGo, OutersStand};

use sp_fitting::{lists_fit, nodes_fit};
use sp_lane_groups::places_have_room;

/// The stages of a body stand in each lane where their controller does.
pub fn outers_stand()
    ensures { (core : PlainCore) → OutersStand core }
{}

/// A controller whose body has stages and one lane does in lanes what it does in the core, where its stages do.
pub fn outers_go()
    ensures { (core : PlainCore) → OutersGo core }
{
    lists_fit();
    nodes_fit();
    places_have_room();
}
