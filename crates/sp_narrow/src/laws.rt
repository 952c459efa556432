//! Laws of narrow cores. Each function does nothing: what it ensures is the law.

ghost use Rattle.sp_core.specs.PlainCore.{PlainCore};
ghost use Rattle.sp_narrow.specs.Laws.{NarrowGoesNoOftener, NarrowHasLessLimit, NarrowRunsAlike, NarrowStaysByLane, NarrowStaysCore, TimedIsNarrow};

/// A narrow core does in each run what its core does.
pub fn narrow_cores_run_alike()
    ensures { (core : PlainCore) → NarrowRunsAlike core }
{}

/// It keeps the rules of cores.
pub fn narrow_cores_stay_cores()
    ensures { (core : PlainCore) → NarrowStaysCore core }
{}

/// What its loops own is used lane by lane, if it was.
pub fn narrow_cores_stay_by_lane()
    ensures { (core : PlainCore) → NarrowStaysByLane core }
{}

/// It goes around no oftener: a slice that is moved word by word has as many words as its lanes move.
pub fn narrow_cores_go_no_oftener()
    ensures { (core : PlainCore) → NarrowGoesNoOftener core }
{}

/// Its limit is no greater.
pub fn narrow_cores_have_less_limits()
    ensures { (core : PlainCore) → NarrowHasLessLimit core }
{}

/// A core without transfers in several lanes is narrow as it is.
pub fn timed_cores_are_narrow()
    ensures { (core : PlainCore) → TimedIsNarrow core }
{}
