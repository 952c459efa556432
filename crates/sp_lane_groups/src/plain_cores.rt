//! A law of the cores of programs. The function does nothing: what it ensures is the law.

ghost use Rattle.sp_tree.specs.PlainProgram.{PlainProgram};
ghost use Rattle.sp_lane_groups.specs.PlainLaws.{HasPlainCore};

/// In each list of the core of a program counters are named in lane 0, and no operation asks whether a lane has an iteration.
pub fn programs_are_plain()
    ensures { (p : PlainProgram) → HasPlainCore p }
{}
