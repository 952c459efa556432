//! Laws of runs of lanes. Each function does nothing: what it ensures is the law.

ghost use Rattle.sp_core.specs.PlainCore.{PlainCore};
ghost use Rattle.sp_lane_groups.specs.RunsLaws.{MaskedLaneRests, NameMemories};

/// The body of a lane that has no iteration in a group goes on, and changes nothing.
pub fn masked_lanes_rest()
    ensures { (lanes : PlainCore) → MaskedLaneRests lanes }
{}

/// Each access of a list that keeps the rules of cores names a memory.
pub fn accesses_name_memories()
    ensures { (core : PlainCore) → NameMemories core }
{}
