//! A law of whole cores. The function does nothing: what it ensures is the law.

ghost use Rattle.sp_tree.specs.Invariant.{IsProgram};
ghost use Rattle.sp_tree.specs.PlainProgram.{PlainProgram};
ghost use Rattle.sp_lane_trees.specs.Outcomes.{ProgramGoes};

use crate::laws::nodes_go;
use sp_lane_cores::{programs_end, programs_stand_apart};
use sp_lane_groups::programs_stand;

/// Where the core of a program ends, and each of its controllers with stages has one lane, or none of its stages combines, or the
/// last one combines a word or the elements of a memory, the core in lanes ends with the same words of outputs and of DRAMs, and goes around no oftener.
pub fn programs_go()
    ensures { (p : PlainProgram) → IsProgram p → ProgramGoes p }
{
    programs_stand();
    programs_end();
    programs_stand_apart();
    nodes_go();
}
