//! Laws of branches and FSMs. Each function does nothing: what it ensures is the law.

ghost use Rattle.sp_core.specs.PlainCore.{PlainCore};
ghost use Rattle.sp_lane_trees.specs.NodesLaws.{BranchesGo, BranchesStand, FsmsGo, FsmsStand};

use sp_fitting::{lists_fit, nodes_fit};
use sp_lane_groups::places_have_room;

/// The parts of a branch stand where it does.
pub fn branches_stand()
    ensures { (core : PlainCore) → BranchesStand core }
{}

/// A branch does in lanes what it does in the core, where its parts do.
pub fn branches_go()
    ensures { (core : PlainCore) → BranchesGo core }
{
    lists_fit();
    nodes_fit();
    places_have_room();
}

/// The body of an FSM stands where it does, with its state.
pub fn fsms_stand()
    ensures { (core : PlainCore) → FsmsStand core }
{}

/// An FSM does in lanes what it does in the core, where its body does.
pub fn fsms_go()
    ensures { (core : PlainCore) → FsmsGo core }
{
    lists_fit();
    nodes_fit();
    places_have_room();
}
