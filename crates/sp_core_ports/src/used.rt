//! Laws of readers and of ports.

ghost use Rattle.sp_core_ports.specs.UsedLaws.{ListsUseNoPortTwice, OrderedUseNoEndTwice, OutersUseNoPortTwice, PartsUseNoPortTwice, ReadersAreCounted, ReadersAreInOrder, ReadersHavePlaces, TransfersUseNoPortTwice};
ghost use Rattle.sp_core.specs.PlainCore.{PlainCore};
ghost use Rattle.sp_machine.specs.Transfers.{Delays};
ghost use Rattle.sp_plan.specs.PlainPlan.{PlainPlan};

/// A memory has as many readers as a plan is to give it duplicates.
pub fn readers_are_counted()
    ensures { (core : PlainCore) → ReadersAreCounted core }
{}

/// Readers of a memory stand one after the other, by the numbers of their operations.
pub fn readers_are_in_order()
    ensures { (core : PlainCore) → ReadersAreInOrder core }
{}

/// So the duplicate that serves a read is that of its reader: as many readers are over as stand before it.
pub fn readers_have_places()
    ensures { (core : PlainCore) → ReadersHavePlaces core }
{}

/// A start, a test and a next do one operation after another, so no two of these use one port in one cycle.
pub fn lists_use_no_port_twice()
    ensures { (core : PlainCore) (plan : PlainPlan) (delays : Delays) → ListsUseNoPortTwice core plan delays }
{}

/// A transfer reads or writes a word of its memory at a time.
pub fn transfers_use_no_port_twice()
    ensures { (core : PlainCore) (plan : PlainPlan) (delays : Delays) → TransfersUseNoPortTwice core plan delays }
{}

/// Parts that come one after another use no port twice where each by itself doesn't.
pub fn parts_use_no_port_twice()
    ensures { (core : PlainCore) (plan : PlainPlan) (delays : Delays) → PartsUseNoPortTwice core plan delays }
{}

/// Nor does an outer body, where runs of its stages that use one port come one after the other.
pub fn outers_use_no_port_twice()
    ensures { (core : PlainCore) (plan : PlainPlan) (delays : Delays) → OutersUseNoPortTwice core plan delays }
{}

/// Of moments that come in order no two use one end of a FIFO in one cycle.
pub fn ordered_use_no_end_twice()
    ensures { (core : PlainCore) → OrderedUseNoEndTwice core }
{}
