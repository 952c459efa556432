//! The copies of each memory of a core.

ghost use Rattle.std.specs.Prelude.{◌≡◌, ◌≤◌, ◌+◌, ◌^◌, ◌&&◌, not, map, slice_index_or};
ghost use Rattle.sp_core.specs.CoreParts.{plain_core};
ghost use Rattle.sp_core.specs.Declarations.{is_among, is_stream};
ghost use Rattle.sp_core.specs.Numbering.{node_count};
ghost use Rattle.sp_core.specs.Plain.{plain_counter, plain_node, plain_stage_list};
ghost use Rattle.sp_depths.specs.Depths.{depth_in, depth_of};
ghost use Rattle.sp_plan.specs.Copies.{is_loop, copies};
ghost use Rattle.sp_plan.specs.Plain.{plain_node_plan};
ghost use Rattle.sp_plan.specs.PlainPlan.{other_plan};

use crate::spread::copies;
use sp_core::{Core, CoreCounter, Node, Stage};
use sp_plan::{NodePlan, count_nodes, is_stream};
use sp_words::Style;

fn is_among(m: u32, owned: &[u32]) -> bool
    ensures { result ≡ is_among m owned.now }
{
    for r in owned {
        if m == *r {
            return true;
        }
    }
    false
}

/// Whether a body is a loop whose memories may have several copies, and owns this one.
fn copies_it(counters: &[CoreCounter], style: Style, m: u32, owned: &[u32]) -> bool
    ensures { result ≡ ((is_loop (map plain_counter counters.now) && not (is_stream style)) && is_among m owned.now) }
{
    (!counters.is_empty() && !is_stream(style)) && is_among(m, owned)
}

/// How many copies a memory has by the loop of a number, where that one owns it.
fn copies_at(core: &Core, nodes: &[NodePlan], m: u32, k: u32, stages: &[Stage]) -> u64
    ensures { result ≡ copies (plain_core core.now) m (plain_stage_list stages.now) (slice_index_or (map plain_node_plan nodes.now) k other_plan) }
{
    match nodes.get(k as usize) {
        Some(plan) => copies(core, m, stages, plan),
        None => copies(core, m, stages, &NodePlan::Other),
    }
}

/// How many copies a memory has by the loops of a part, whose first node has a number.
fn depth_in(core: &Core, nodes: &[NodePlan], m: u32, k: u32, node: &Node) -> u64
    requires { k + node_count (plain_node node.now) ≤ 2 ^ 30 }
    ensures { result ≡ depth_in (plain_core core.now) (map plain_node_plan nodes.now) m k (plain_node node.now) }
{
    match node {
        Node::Outer {
            counters,
            style,
            owned,
            stages,
        } => {
            if copies_it(counters, *style, m, owned) {
                return copies_at(core, nodes, m, k, stages);
            }
            let mut most = 1;
            let mut next = k + 1;
            for stage in stages {
                most = most.max(depth_in(core, nodes, m, next, &stage.node));
                next += count_nodes(&stage.node);
            }
            most
        }
        Node::Fsm { body, .. } => depth_in(core, nodes, m, k + 1, body),
        Node::Branch { yes, no, .. } => {
            let first = depth_in(core, nodes, m, k + 1, yes);
            first.max(depth_in(core, nodes, m, k + 1 + count_nodes(yes), no))
        }
        _ => 1,
    }
}

/// How many copies a memory of a core in lanes has, by the plans of its nodes, in preorder: as many as there are slots
/// from the first to the last in which a stage of the loop that owns it uses it, and one where no loop owns it.
pub fn depth(core: &Core, nodes: &[NodePlan], m: u32) -> u64
    ensures { result ≡ depth_of (plain_core core.now) (map plain_node_plan nodes.now) m }
{
    depth_in(core, nodes, m, 0, core.root())
}
