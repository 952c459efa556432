//! Laws of counters. The function does nothing: what it ensures is the law.

ghost use Rattle.sp_counters.specs.Laws.{CountersRunThroughGroups};

/// Counters that are started in a cycle go through the groups of their loop, one at each step: their words are the group's
/// values, each lane's mask tells whether it has an iteration, and `more` is 1 while there is a group.
pub fn counters_run_through_groups()
    ensures { CountersRunThroughGroups }
{}
