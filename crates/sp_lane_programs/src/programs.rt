//! A law of whole programs in lanes. The function does nothing: what it ensures is the law.

ghost use Rattle.sp_tree.specs.Invariant.{IsProgram};
ghost use Rattle.sp_tree.specs.PlainProgram.{PlainProgram};
ghost use Rattle.sp_lane_programs.specs.ProgramsLaws.{ProgramEnds};

use sp_lane_cores::programs_end;
use sp_lane_trees::programs_go;

/// Where the core of a program ends, its core in lanes ends with the same words of outputs and of DRAMs, goes around no oftener, and
/// has the same counts: each group of a loop has the iterations of its lanes.
pub fn programs_end_in_lanes()
    ensures { (p : PlainProgram) → IsProgram p → ProgramEnds p }
{
    programs_end();
    programs_go();
}
