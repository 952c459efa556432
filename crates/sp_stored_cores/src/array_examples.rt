//! A worked load and a worked store. Each function does nothing: what it ensures was worked out by hand.

ghost use Rattle.sp_stored_cores.specs.ArrayExample.{WorkedLoad};
ghost use Rattle.sp_stored_cores.specs.ArrayExampleStores.{WorkedStore};

/// The write of a load acts in time at the event that writes its SRAM, at that event's copy, though not at all events of its number.
pub fn worked_load()
    ensures { WorkedLoad }
{}

/// The read of a store acts in time at the event that reads its SRAM, at that event's copy, though not at all events of its number, and
/// not by a net that is 1 in a further cycle.
pub fn worked_store()
    ensures { WorkedStore }
{}
