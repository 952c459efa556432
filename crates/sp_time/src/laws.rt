//! Laws of events in time and of the beats of a loop. Each function does nothing: what it ensures is the law.

ghost use Rattle.sp_time.specs.Example.{OverlapExample};
ghost use Rattle.sp_time.specs.Laws.{BeatsInOrder, ContentsInTime, CostsBound, OutersInOrder, StagesSuffice};

/// Events that wait for each other where they meet, and that are a run in the order of the text, are found in time: each
/// finds in its own cycle what it finds in that order, whatever the order of the cycles.
pub fn contents_in_time()
    ensures { ContentsInTime }
{}

/// The runs of a loop's stages come beat after beat, and within a chain one after the other.
pub fn beats_in_order()
    ensures { BeatsInOrder }
{}

/// A loop takes no longer than its cost where no run of a stage does.
pub fn costs_bound()
    ensures { CostsBound }
{}

/// What happens in a loop comes in order where runs that meet come one after the other.
pub fn outers_in_order()
    ensures { OutersInOrder }
{}

/// Rules of slots, chains and copies by which runs that meet come one after the other.
pub fn stages_suffice()
    ensures { StagesSuffice }
{}

/// A small loop with a double buffer, whose beats overlap.
pub fn overlap_example()
    ensures { OverlapExample }
{}
