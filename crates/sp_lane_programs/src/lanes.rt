//! A law of the cores of programs in lanes. The function does nothing: what it ensures is the law.

ghost use Rattle.sp_tree.specs.Invariant.{IsProgram};
ghost use Rattle.sp_tree.specs.PlainProgram.{PlainProgram};
ghost use Rattle.sp_lane_programs.specs.LanesLaws.{ProgramIsByLane};

use sp_lane_groups::programs_stand;
use sp_lane_trees::{branches_stand, fsms_stand, outers_stand};

/// In the core of a program whose lanes stand one after the other, what a loop owns is used in one lane alone, and after all lanes.
pub fn programs_are_by_lane()
    ensures { (p : PlainProgram) → IsProgram p → ProgramIsByLane p }
{
    programs_stand();
    branches_stand();
    fsms_stand();
    outers_stand();
}
