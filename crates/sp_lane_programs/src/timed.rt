//! Laws of programs of whose cores all runs are timed.

ghost use Rattle.sp_core.specs.PlainCore.{PlainCore};
ghost use Rattle.sp_tree.specs.Invariant.{IsProgram};
ghost use Rattle.sp_tree.specs.PlainProgram.{PlainProgram};
ghost use Rattle.sp_lane_programs.specs.TimedLaws.{StaysTimed, ProgramIsTimed};

/// Where no stream block and no gather, scatter or wide transfer stands in a core, none stands in it in lanes.
pub fn nodes_are_timed()
    ensures { (core : PlainCore) → StaysTimed core }
{}

/// None stands in the core of a program in lanes, if none stands in the program: no proper stream block, no gather or scatter,
/// and no transfer of a slice in several lanes.
pub fn programs_are_timed()
    ensures { (p : PlainProgram) → IsProgram p → ProgramIsTimed p }
{
    nodes_are_timed();
}
