//! FSMs and branches over all of their runs. Each function does nothing: what it ensures is the law.

ghost use Rattle.sp_part_runs.specs.ControlLaws.{BranchesWork, MachinesWork};

/// A branch whose starts are those of its runs starts its test and the part that was taken in each of them when it is to, and is
/// done when they are over.
pub fn branches_work()
    ensures { BranchesWork }
{}

/// So does an FSM: its first part, its test, its body and its next part, turn after turn.
pub fn machines_work()
    ensures { MachinesWork }
{}
