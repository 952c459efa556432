//! Laws of inner bodies, and of how histories go together. Each function does nothing: what it ensures is the law.

ghost use Rattle.sp_core.specs.PlainCore.{PlainCore};
ghost use Rattle.sp_lane_groups.specs.InnersAlike.{GoAlike};
ghost use Rattle.sp_lane_groups.specs.InnersExamples.{in_core, in_two_lanes, loop};
ghost use Rattle.sp_lane_groups.specs.InnersLaws.{InnersGo};

use crate::places_have_room;
use sp_fitting::lists_fit;

/// An inner body of one lane, or without a combination, does in lanes what it does in the core.
pub fn inners_go()
    ensures { (core : PlainCore) → InnersGo core }
{
    lists_fit();
    places_have_room();
}

/// Three iterations go alike in two groups of two lanes, of which the last lane of the second one is left out.
pub fn worked_histories()
    ensures { GoAlike loop in_core in_two_lanes }
{}
