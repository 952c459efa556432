//! Laws of lanes that have an iteration. Each function does nothing: what it ensures is the law.

ghost use Rattle.sp_core.specs.PlainCore.{PlainCore};
ghost use Rattle.sp_lane_groups.specs.LiveLaws.{AccessesGoAlong, CopiesStand, CountersGoAlong, ListsGoAlong, LiveLanesGoAlong, NoneStands};

/// At each place of a core what may be used there stands in lanes for a copy of it.
pub fn copies_stand_at_places()
    ensures { (core : PlainCore) → CopiesStand core }
{}

/// An access does in a lane to the copy of a memory what it does in the core to the memory, and nothing else.
pub fn accesses_go_along()
    ensures { (core : PlainCore) → AccessesGoAlong core }
{}

/// A list of operations does in a lane what it does in the core, where counters have the same words.
pub fn lists_go_along()
    ensures { (core : PlainCore) → ListsGoAlong core }
{}

/// The body of a lane that has an iteration does what the body does in the core for that iteration, where reads that stand
/// already give the words that they do in it.
pub fn live_lanes_go_along()
    ensures { (core : PlainCore) → LiveLanesGoAlong core }
{}

/// For the first lane no read stands already.
pub fn none_stands_in_first_lane()
    ensures { NoneStands }
{}

/// In a lane of a group counters have the words that they have in the core for the iteration of that lane.
pub fn counters_go_along()
    ensures { CountersGoAlong }
{}
