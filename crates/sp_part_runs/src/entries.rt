//! From a run of an inner body to its groups. The function does nothing: what it ensures is the law.

ghost use Rattle.sp_core.specs.PlainCore.{PlainCore};
ghost use Rattle.sp_part_runs.specs.EntriesLaws.{InnerRunsAreDone};

use sp_fitting::nodes_fit;

/// In each group of a run of an inner body the entries are what its operations did, with the group's counters, and masks are bits.
pub fn inner_runs_are_done()
    ensures { (core : PlainCore) → InnerRunsAreDone core }
{
    nodes_fit();
}
