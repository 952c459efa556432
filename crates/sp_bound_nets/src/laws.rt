//! Laws of what is handed on of bounds and spans. The functions do nothing: what they ensure are the laws.

ghost use Rattle.sp_bound_nets.specs.Laws.{BoundsAreAnswered, SpansAreAnswered};

/// Where each list that is handed on is answered in time, so is each list of a circuit's bounds.
pub fn bounds_are_answered()
    ensures { BoundsAreAnswered }
{}

/// Where each list that is handed on is answered in time, so is each list of the ends of a slice.
pub fn spans_are_answered()
    ensures { SpansAreAnswered }
{}
