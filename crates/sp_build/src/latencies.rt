//! The latencies of a plan.
ghost use Rattle.std.specs.Prelude.{◌≡◌};
ghost use Rattle.sp_machine.specs.Timeline.{latency_of};
ghost use Rattle.sp_plan.specs.Plain.{plain_node_plan, plain_plan};
ghost use Rattle.sp_build.specs.Laws.{HasShortLatencies};

use sp_plan::{NodePlan, Plan};

/// The latency of a node's plan.
fn latency(plan: &NodePlan) -> u32
    ensures { result ≡ latency_of (plain_node_plan plan.now) }
{
    match plan {
        NodePlan::Inner { latency, .. } => *latency,
        NodePlan::Outer { .. } => 0,
        NodePlan::Other => 0,
    }
}

/// Each latency has 32 bits, as its type says. It does nothing else: what it ensures is what is wanted.
pub fn latencies_are_short(plan: &Plan)
    ensures { HasShortLatencies (plain_plan plan.now) }
{
    for index in 0..plan.nodes.len() {
        latency(&plan.nodes[index]);
    }
}
