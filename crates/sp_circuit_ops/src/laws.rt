//! Laws of operations in circuits. The functions do nothing: what they ensure are the laws.

ghost use Rattle.sp_circuit_ops.specs.Fitting.{AwaitedOperationsFit, OperationsFit};

/// Operations of a core that keep its rules may be emitted, at times that leave each word the time to come before it is used.
pub fn placed_operations_fit()
    ensures { OperationsFit }
{}

/// So may they at times that leave each word the cycles for which it is awaited, whatever the core's latencies are: as operations
/// that are all done at once and answered in the cycle itself.
pub fn awaited_operations_fit()
    ensures { AwaitedOperationsFit }
{}
