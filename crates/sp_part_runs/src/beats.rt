//! Loops in beats over all of their runs. Each function does nothing: what it ensures is the law.

ghost use Rattle.sp_part_runs.specs.BeatsExample.{WorkedRun};
ghost use Rattle.sp_part_runs.specs.BeatsLaws.{LoopsWork, LoopsAreInTimeline};

/// A loop in beats whose starts are those of its runs moves its groups on, starts the members of its slots in each of them when it
/// is to, and is done when they are over.
pub fn loops_in_beats_work()
    ensures { LoopsWork }
{}

/// Its beats and members begin, and it is over, in the cycles that a timeline says.
pub fn loops_are_in_timeline()
    ensures { LoopsAreInTimeline }
{}

/// A run of three groups in two slots.
pub fn worked_run()
    ensures { WorkedRun }
{}
