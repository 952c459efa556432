//! A law of transfers. The function does nothing: what it ensures is the law.

ghost use Rattle.sp_core.specs.PlainCore.{PlainCore};
ghost use Rattle.sp_lane_trees.specs.TransfersLaws.{TransfersGo};

use sp_fitting::lists_fit;
use sp_lane_groups::places_have_room;

/// A transfer does in lanes what it does in the core.
pub fn transfers_go()
    ensures { (core : PlainCore) → TransfersGo core }
{
    lists_fit();
    places_have_room();
}
