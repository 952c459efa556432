//! That a core has one plan.

ghost use Rattle.sp_one_plan.specs.Laws.{CoresHaveOnePlan, MemsHaveOneScheme, NodesHaveOnePlan};

/// A memory has one chosen scheme, or none: of two schemes of one rank one precedes the other.
pub fn mems_have_one_scheme()
    ensures { MemsHaveOneScheme }
{}

/// A node has one best plan for the schemes of memories: one least latency, interval and time of each operation, or one slot
/// and one chain for each stage.
pub fn nodes_have_one_plan()
    ensures { NodesHaveOnePlan }
{}

/// A core has one plan for the forms and the meets of its accesses.
pub fn cores_have_one_plan()
    ensures { CoresHaveOnePlan }
{}
