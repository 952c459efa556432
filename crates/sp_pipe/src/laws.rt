//! A law of inner bodies. The function does nothing: what it ensures is the law.

ghost use Rattle.sp_pipe.specs.Laws.{BodiesRunInTime};

/// A body with counters that is started in a cycle issues its groups an interval after one another from the next cycle on, and
/// no other, and is done so many cycles after the last one; where there is no group, in the cycle after the start.
pub fn bodies_run_in_time()
    ensures { BodiesRunInTime }
{}
