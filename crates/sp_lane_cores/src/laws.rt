//! Laws of cores in lanes. Each function does nothing: what it ensures is the law.

ghost use Rattle.sp_tree.specs.Invariant.{IsProgram};
ghost use Rattle.sp_tree.specs.PlainProgram.{PlainProgram};
ghost use Rattle.sp_core.specs.PlainCore.{PlainCore};
ghost use Rattle.sp_lane_cores.specs.Laws.{LanedKeepRules, ProgramStandsApart, StaysCore};

/// A core whose combinations stand where they are marked, take words that stand before them and have counters of their own
/// keeps every rule of cores where its lanes stand one after the other.
pub fn laned_cores_keep_rules()
    ensures { (core : PlainCore) → LanedKeepRules core }
{}

/// In the core of a program combinations take words that stand before them, and have counters of their own.
pub fn programs_stand_apart()
    ensures { (p : PlainProgram) → IsProgram p → ProgramStandsApart p }
{}

/// The core of a program is a core where its lanes stand one after the other.
pub fn programs_stay_cores()
    ensures { (p : PlainProgram) → IsProgram p → StaysCore p }
{}
