//! The tree of a program's canonical text has no refusals. Each function does nothing: what it ensures is the law.
#![tactic(auto)]

ghost use Rattle.sp_unrefused.specs.Laws.{ExpressionsAreRight, SlicesAreRight, CountersAreRight, BindersAreRight, PlacesGoOn, ProgramsAreUnrefused};

/// Expressions, slices of SRAMs and counters that name no accumulator around have no refusals in the body of it, nor have
/// the names that a loop binds; and behind a statement stands such a place again.
pub fn parts_are_right()
    ensures expressions { ExpressionsAreRight }
    ensures slices { SlicesAreRight }
    ensures counters { CountersAreRight }
    ensures binders { BindersAreRight }
    ensures places { PlacesGoOn }
{}

/// A tree that spells a program breaks no rule of names and types.
pub fn programs_are_unrefused()
    ensures { ProgramsAreUnrefused }
{}
