//! An inner body under counters, over all of its runs. Each function does nothing: what it ensures is the law.

ghost use Rattle.sp_part_runs.specs.CountedLaws.{CountersTell, LoopsWork};

/// The counters tell in each run of a body whether a group is left, and where a group is issued they have its words and masks.
pub fn counters_tell()
    ensures { CountersTell }
{}

/// Where a body and its counters are started in the cycles of its runs, it is done where these are over, and each of its
/// accesses acts where the core made it and nowhere else.
pub fn loops_work()
    ensures { LoopsWork }
{}
