//! Worked cores that combine as lanes may. The function does nothing: what it ensures holds of cores that were written by
//! hand, whose lanes `sp_lanes` has.

ghost use Rattle.std.specs.Prelude.{[]};
ghost use Rattle.sp_lanes.specs.Examples.{fixed_folded, fixed_reduced, memory_reduced_by_two};
ghost use Rattle.sp_lane_rules.specs.CombinedStanding.{Combines};

/// A fold and a reduction by a product of numbers with bits after the point, which lanes do in order, and a reduction of a
/// memory, whose elements have a counter of their own.
pub fn worked_combinations()
    ensures folded { Combines [] fixed_folded.root }
    ensures reduced { Combines [] fixed_reduced.root }
    ensures elements { Combines [] memory_reduced_by_two.root }
{}
