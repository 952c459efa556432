//! Laws of where the events of a run stand.

ghost use Rattle.sp_along.specs.Along.{EventsHaveSpots};
ghost use Rattle.sp_along.specs.AlongTextOrder.{RunsGoUp};
ghost use Rattle.sp_core.specs.PlainCore.{PlainCore};

/// What happens in a run of a core has a spot of its number among the accesses of the core, whose controllers are those of
/// its path.
pub fn events_have_spots()
    ensures { (core : PlainCore) → EventsHaveSpots core }
{}

/// In one group of a loop, and in one turn of an FSM, things are done in the order of their numbers.
pub fn runs_go_up()
    ensures { (core : PlainCore) → RunsGoUp core }
{}
