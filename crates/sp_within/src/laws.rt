//! Laws of costs.

ghost use Rattle.sp_core.specs.Cost.{Timings};
ghost use Rattle.sp_core.specs.PlainCore.{PlainCore};
ghost use Rattle.sp_within.specs.Laws.{CostsAreWithin};
ghost use Rattle.std.specs.Prelude.{ℕ};

/// By brisk timings each run of a core costs no more than the limit for as many turns as the run goes around.
pub fn costs_are_within()
    ensures { (core : PlainCore) (timings : Timings) (delay : ℕ) → CostsAreWithin core timings delay }
{}
