//! Times of a valid plan. The function does nothing: what it ensures is the law.

ghost use Rattle.sp_plan_times.specs.Times.{PlansLeaveTime};

/// By a valid plan each word of an inner body is there when it is used, and a body that is over at once has no operation that
/// takes time.
pub fn plans_leave_time()
    ensures { PlansLeaveTime }
{}
