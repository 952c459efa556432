//! Laws of the nets inside of a controller. The functions do nothing: what they ensure are the laws.
ghost use Rattle.sp_around_tables.specs.Inside.{StandInside, StandLater};

/// Where the counters around a controller stand in a table, and its own have nets, all stand in the table inside.
pub fn counters_stand_inside()
    ensures { StandInside }
{}

/// Counters that stand in a table still stand where the draft has grown.
pub fn counters_stand_later()
    ensures { StandLater }
{}
