//! Whether the plan of each memory is right.

ghost use Rattle.std.specs.Prelude.{◌≡◌, ◌<◌, ◌↔◌, ℕ, map, length, IsTrue};
ghost use Rattle.sp_core.specs.CoreParts.{plain_core};
ghost use Rattle.sp_core.specs.Forms.{plain_forms};
ghost use Rattle.sp_depths.specs.Depths.{depth_of};
ghost use Rattle.sp_plan.specs.Copies.{duplicates};
ghost use Rattle.sp_plan.specs.Plain.{plain_node_plan};
ghost use Rattle.sp_plans.specs.Parts.{IsServed, IsMemRight};
ghost use Rattle.sp_valid.specs.Plans.{plan_of};

use sp_core::{AccessForms, Core, Meet};
use sp_depths::depth;
use sp_plan::{MemPlan, NodePlan, duplicates};
use sp_serving::serves;

/// Whether a memory has as many copies as the plans of the nodes ask.
fn is_deep(core: &Core, nodes: &[NodePlan], m: u32, mem: &MemPlan) -> bool
    ensures { IsTrue result ↔ (mem.now.depth ≡ depth_of (plain_core core.now) (map plain_node_plan nodes.now) m) }
{
    u64::from(mem.depth) == depth(core, nodes, m)
}

/// Whether it has a duplicate for each of its readers.
fn is_duplicated(core: &Core, m: u32, mem: &MemPlan) -> bool
    ensures { IsTrue result ↔ (mem.now.duplicates ≡ duplicates (plain_core core.now) m) }
{
    u64::from(mem.duplicates) == duplicates(core, m)
}

/// Whether the scheme of a memory serves it, and it has the copies and the duplicates that are asked.
fn is_right(core: &Core, forms: &AccessForms, nodes: &[NodePlan], m: u32, mem: &MemPlan) -> bool
    ensures { IsTrue result ↔ (IsServed (plain_core core.now) (plain_forms forms.now) m mem.now.scheme × ((mem.now.depth ≡ depth_of (plain_core core.now) (map plain_node_plan nodes.now) m) × (mem.now.duplicates ≡ duplicates (plain_core core.now) m))) }
{
    if !is_deep(core, nodes, m, mem) {
        return false;
    }
    if !is_duplicated(core, m, mem) {
        return false;
    }
    serves(core, forms, m, mem)
}

/// Whether the plan of each memory is right, where there is one for each.
pub(crate) fn are_mems_right(
    core: &Core,
    forms: &AccessForms,
    meets: &[Meet],
    mems: &[MemPlan],
    nodes: &[NodePlan],
) -> bool
    requires { length mems.now ≡ length (plain_core core.now).mems }
    ensures { IsTrue result ↔ ((m : ℕ) → m < length (plain_core core.now).mems → IsMemRight (plain_core core.now) (plain_forms forms.now) meets.now (plan_of mems.now nodes.now) m) }
{
    let _meets = meets;
    let _root = core.root();
    for (m, mem) in mems.iter().enumerate() {
        if !is_right(core, forms, nodes, m as u32, mem) {
            return false;
        }
    }
    true
}
