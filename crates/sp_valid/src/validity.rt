//! Whether a plan is valid.

ghost use Rattle.std.specs.Prelude.{◌≡◌, ◌↔◌, length, IsTrue};
ghost use Rattle.sp_core.specs.CoreParts.{plain_core};
ghost use Rattle.sp_core.specs.Forms.{plain_forms};
ghost use Rattle.sp_core.specs.Numbering.{node_count};
ghost use Rattle.sp_plan.specs.Plain.{plain_plan};
ghost use Rattle.sp_plan.specs.Validity.{IsValid};
ghost use Rattle.sp_plans.specs.Parts.{IsRightByParts};
ghost use Rattle.sp_valid.specs.Plans.{plan_of};

use crate::mems::are_mems_right;
use crate::nodes::are_nodes_right;
use sp_core::{AccessForms, Core, Meet};
use sp_plan::{MemPlan, NodePlan, Plan, count_nodes};
use sp_plans::plans_are_valid_by_parts;

/// Whether there are as many plans of memories as memories.
fn has_each_mem(core: &Core, mems: &[MemPlan]) -> bool
    ensures { IsTrue result ↔ (length mems.now ≡ length (plain_core core.now).mems) }
{
    mems.len() == core.mems().len()
}

/// Whether there are as many plans of nodes as nodes.
fn has_each_node(core: &Core, nodes: &[NodePlan]) -> bool
    ensures { IsTrue result ↔ (length nodes.now ≡ node_count (plain_core core.now).root) }
{
    let count = count_nodes(core.root());
    nodes.len() == count as usize
}

/// Whether each node and each memory has its plan, and it is right.
fn is_right_by_parts(
    core: &Core,
    forms: &AccessForms,
    meets: &[Meet],
    mems: &[MemPlan],
    nodes: &[NodePlan],
) -> bool
    ensures { IsTrue result ↔ IsRightByParts (plain_core core.now) (plain_forms forms.now) meets.now (plan_of mems.now nodes.now) }
{
    if !has_each_mem(core, mems) {
        return false;
    }
    if !has_each_node(core, nodes) {
        return false;
    }
    if !are_nodes_right(core, forms, meets, mems, nodes) {
        return false;
    }
    are_mems_right(core, forms, meets, mems, nodes)
}

/// Whether a plan of a core in lanes is valid, for these forms of its accesses and these meets, whatever they are: it has an
/// entry for each memory and each node, of its kind; the schemes are of their memories and keep their accesses apart;
/// times, slots and chains keep their orders; and each memory has the copies and the duplicates that these ask.
///
/// It takes no memory. In time it looks at all numbers of the core for each node, and for each two accesses of a body to
/// one port of a memory with a scheme.
pub fn valid(core: &Core, forms: &AccessForms, meets: &[Meet], plan: &Plan) -> bool
    ensures { IsTrue result ↔ IsValid (plain_core core.now) (plain_forms forms.now) meets.now (plain_plan plan.now) }
{
    plans_are_valid_by_parts();
    let _root = core.root();
    is_right_by_parts(core, forms, meets, &plan.mems, &plan.nodes)
}
