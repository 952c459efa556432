//! The plan of an outer body.

ghost use Rattle.std.specs.Prelude.{◌≡◌, IsTrue, IfOk};
ghost use Rattle.sp_core.specs.CoreParts.{plain_core};
ghost use Rattle.sp_core.specs.Plain.{plain_node};
ghost use Rattle.sp_plan.specs.Plain.{plain_node_plan};
ghost use Rattle.sp_stages.specs.Plans.{is_outer, is_outer_of, IsFinestPlan, IsRightPlan};

use crate::NoMemory;
use crate::finest::{chains, slots};
use sp_core::{Core, Meets, Node};
use sp_plan::{NodePlan, site_at};
use std::alloc::Global;

fn is_outer(node: &Node) -> bool
    ensures { result ≡ is_outer (plain_node node.now) }
{
    match node {
        Node::Outer { .. } => true,
        _ => false,
    }
}

/// Whether the node of a number is an outer body.
pub fn is_outer_of(core: &Core, node: u32) -> bool
    ensures { result ≡ is_outer_of (plain_core core.now) node }
{
    match site_at(node, 0, false, core.root()) {
        None => false,
        Some(site) => is_outer(site.node),
    }
}

/// The plan of an outer body with the finest slots and, for these, the finest chains, by the number of its node and the
/// meets of the core. Of a node that is no outer body nothing is planned.
///
/// In time it takes a look at each stage for each meet, and at each meet for each two stages of one slot.
pub fn stages(alloc: Global, core: &Core, node: u32, meets: &Meets) -> Result<NodePlan, NoMemory>
    ensures finest { IfOk result (λ plan. IsFinestPlan (plain_core core.now) meets.now.pairs.items node (plain_node_plan plan)) }
    ensures right { IsTrue (is_outer_of (plain_core core.now) node) → IfOk result (λ plan. IsRightPlan (plain_core core.now) meets.now.pairs.items node (plain_node_plan plan)) }
{
    if !is_outer_of(core, node) {
        return Ok(NodePlan::Other);
    }
    let slots = slots(alloc, core, node, meets)?;
    let chains = chains(alloc, core, node, meets, &slots)?;
    Ok(NodePlan::Outer { slots, chains })
}
