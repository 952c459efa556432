//! Loops in beats under counters. Each function does nothing: what it ensures is the law.

ghost use Rattle.sp_part_runs.specs.StepsLaws.{CountedLoopsWork, CountersStep};

/// Counters that a loop in beats steps have in each step the words of the group that comes, and tell whether there is one; so the
/// loop does its runs.
pub fn counted_loops_work()
    ensures { CountedLoopsWork }
{}

/// Counters that go on in the steps of a loop's runs are right in each step, also in the cycle after those in which the steps are.
pub fn counters_step()
    ensures { CountersStep }
{}
