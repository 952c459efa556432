//! A worked program. The function does nothing: what it ensures was worked out by hand.

ghost use Rattle.sp_tree.specs.ExampleTransfers.{mixed_stages};
ghost use Rattle.sp_compiled_runs.specs.Laws.{IsSimple};

use sp_lane_programs::worked_programs;

/// A load, a loop over stages, and a loop of two lanes that adds sums of elements: where it ends, it runs by its plan.
pub fn worked_program()
    ensures { IsSimple mixed_stages }
{
    worked_programs();
}
