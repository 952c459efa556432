// The count of faults of the sinks and inputs of the machine.
ghost use Rattle.std.specs.Prelude.{◌≡◌, ◌≤◌};
ghost use Rattle.sp_edges.specs.Counts.{one_more};

// Counts a fault. At its greatest value the count stands still.
pub(crate) fn count_fault(faults: &mut u64)
    ensures one { faults.new ≡ one_more faults.old }
    ensures rises { faults.old ≤ faults.new }
{
    *faults = faults.saturating_add(1);
}
