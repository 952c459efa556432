//! A law of all nodes. The function does nothing: what it ensures is the law.

ghost use Rattle.sp_core.specs.PlainCore.{PlainCore};
ghost use Rattle.sp_lane_trees.specs.Laws.{NodesGo};

use crate::{
    branches_go, branches_stand, combined_inners_go, elements_go, fsms_go, fsms_stand, outers_go,
    outers_stand, reductions_go, stages_go, transfers_go,
};
use sp_lane_groups::inners_go;

/// A node does in lanes what it does in the core, and goes around no oftener, where each controller in it with stages has one lane,
/// or none of its stages combines, or the last one combines a word, or elements by counters of their own.
pub fn nodes_go()
    ensures { (core : PlainCore) → NodesGo core }
{
    inners_go();
    combined_inners_go();
    transfers_go();
    branches_stand();
    branches_go();
    fsms_stand();
    fsms_go();
    outers_stand();
    outers_go();
    stages_go();
    reductions_go();
    elements_go();
}
