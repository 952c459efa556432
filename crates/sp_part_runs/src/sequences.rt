//! Sequences over all of their runs. Each function does nothing: what it ensures is the law.

ghost use Rattle.sp_part_runs.specs.SequencesExample.{WorkedSequence};
ghost use Rattle.sp_part_runs.specs.SequencesLaws.{SequencesWork, SequencesAreInTimeline};

/// A sequence whose starts are those of its runs has the first cycles of its slots and starts its members in each of them when it
/// is to, and is done when they are over.
pub fn sequences_work()
    ensures { SequencesWork }
{}

/// Its slots and members begin, and it is over, in the cycles that a timeline says of a loop with one group.
pub fn sequences_are_in_timeline()
    ensures { SequencesAreInTimeline }
{}

/// A run of two slots, in the first of which a member is passed over.
pub fn worked_sequence()
    ensures { WorkedSequence }
{}
