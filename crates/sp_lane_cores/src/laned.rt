//! Laws of the cores of programs. Each function does nothing: what it ensures is the law.

ghost use Rattle.sp_tree.specs.Invariant.{IsProgram};
ghost use Rattle.sp_tree.specs.PlainProgram.{PlainProgram};
ghost use Rattle.sp_sugar.specs.Core.{core_of};
ghost use Rattle.sp_lane_cores.specs.LanedLaws.{MayHaveLanes};
ghost use Rattle.sp_lane_cores.specs.LanedMarks.{IsLaned};
ghost use Rattle.sp_lane_cores.specs.LanedWeights.{IsLight};

/// In the core of a program no combination owns a memory, and arguments and outputs stand in the program's text.
pub fn programs_have_lanes()
    ensures { (p : PlainProgram) → MayHaveLanes (core_of p) }
{}

/// In the core of a program only the last counter of a controller has several lanes, and a combination stands where it is
/// marked.
pub fn programs_are_laned()
    ensures { (p : PlainProgram) → IsProgram p → IsLaned (core_of p) (core_of p).root }
{}

/// The core of a program is small enough for its lanes to stand one after the other.
pub fn programs_are_light()
    ensures { (p : PlainProgram) → IsProgram p → IsLight (core_of p) }
{}
