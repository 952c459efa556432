//! What the circuit of an inner body does over all of its runs. Each function does nothing: what it ensures is the law.

ghost use Rattle.sp_part_runs.specs.BodiesLaws.{BodiesAct, BodiesEndAtOnce, BodiesIssue, BodiesWork, SinglesWork};

/// Where the starts of a body are those of its runs, groups are issued in their cycles and in no other, and each run is over
/// when it is to.
pub fn bodies_issue()
    ensures { BodiesIssue }
{}

/// A body of latency 0 takes two cycles, however many groups it has.
pub fn bodies_end_at_once()
    ensures { BodiesEndAtOnce }
{}

/// Where its groups are issued in the cycles of its runs, each access acts where the core made it and nowhere else, with the
/// words that it took.
pub fn bodies_act()
    ensures { BodiesAct }
{}

/// Both: from its starts to its end and its accesses, up to a cycle.
pub fn bodies_work()
    ensures { BodiesWork }
{}

/// So does a body without counters, which has one group in each run, and a list of operations that is done once.
pub fn singles_work()
    ensures { SinglesWork }
{}
