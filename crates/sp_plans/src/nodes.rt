//! The plans of the nodes of a core.

ghost use Rattle.std.specs.Prelude.{◌≡◌, length, map, IfOk};
ghost use Rattle.sp_core.specs.CoreParts.{plain_core};
ghost use Rattle.sp_core.specs.Invariant.{IsCore};
ghost use Rattle.sp_core.specs.Numbering.{node_count};
ghost use Rattle.sp_plan.specs.Plain.{plain_node_plan};
ghost use Rattle.sp_plans.specs.Planned.{IsBestPlan, AreBestPlans};

use crate::NoMemory;
use sp_bank::Scheme;
use sp_core::{Core, Meets};
use sp_plan::{NodePlan, count_nodes};
use sp_sched::schedule;
use sp_stages::{is_outer_of, stages};
use std::alloc::Global;

/// The finest slots and chains of an outer body, the least times of an inner body, and nothing of any other node.
fn node_plan(
    alloc: Global,
    core: &Core,
    node: u32,
    meets: &Meets,
    schemes: &[Option<Scheme>],
) -> Result<NodePlan, NoMemory>
    ensures { IfOk result (λ plan. IsBestPlan (plain_core core.now) meets.now.pairs.items schemes.now node (plain_node_plan plan)) }
{
    if is_outer_of(core, node) {
        stages(alloc, core, node, meets)
    } else {
        schedule(alloc, core, node, meets, schemes)
    }
}

/// The plans of all nodes, in preorder, by the scheme of each memory.
pub(crate) fn node_plans(
    alloc: Global,
    core: &Core,
    meets: &Meets,
    schemes: &[Option<Scheme>],
) -> Result<Vec<NodePlan>, NoMemory>
    ensures core { IsCore (plain_core core.now) }
    ensures count { IfOk result (λ nodes. length nodes.items ≡ node_count (plain_core core.now).root) }
    ensures best { IfOk result (λ nodes. AreBestPlans (plain_core core.now) meets.now.pairs.items schemes.now (map plain_node_plan nodes.items)) }
{
    let mut nodes = Vec::new(alloc);
    for k in 0..count_nodes(core.root()) {
        nodes.push(node_plan(alloc, core, k, meets, schemes)?)?;
    }
    Ok(nodes)
}
