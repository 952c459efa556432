ghost use Rattle.std.specs.Prelude.{◌≡◌, ◌≤◌, ◌^◌, map, IfOk};
ghost use Rattle.std.specs.List.{All};
ghost use Rattle.sp_core.specs.CoreParts.{plain_core};
ghost use Rattle.sp_core.specs.Plain.{plain_op};
ghost use Rattle.sp_plan.specs.Plain.{plain_node_plan};
ghost use Rattle.sp_sched.specs.Least.{IsLeastPlan};

use crate::NoMemory;
use crate::body::plan_body;
use sp_bank::Scheme;
use sp_core::{Core, Meets, Node};
use sp_plan::{NodePlan, counters_size, site_at};
use std::alloc::Global;

/// The least plan of an inner body, by the number of its node, the meets of the core and the scheme of each memory: the
/// least latency, for it the least interval between groups, and for both the least times. Where no times keep the orders
/// of the operations in one group, and in a stage of a `Stream` block, its operations are done one after the other.
///
/// In time it takes the times of a body are settled about as often as its latency is halved to 1, each in a few passes
/// over its operations, the meets and the pairs of accesses to one port.
pub fn schedule(
    alloc: Global,
    core: &Core,
    node: u32,
    meets: &Meets,
    schemes: &[Option<Scheme>],
) -> Result<NodePlan, NoMemory>
    ensures { IfOk result (λ plan. IsLeastPlan (plain_core core.now) schemes.now meets.now.pairs.items node (plain_node_plan plan)) }
{
    match site_at(node, 0, false, core.root()) {
        None => Ok(NodePlan::Other),
        Some(site) => match site.node {
            Node::Inner { counters, ops, .. } => {
                let number = site.number + counters_size(counters);
                plan_body(
                    alloc,
                    core,
                    ops,
                    number,
                    site.streamed,
                    &meets.pairs,
                    schemes,
                )
            }
            _ => Ok(NodePlan::Other),
        },
    }
}
