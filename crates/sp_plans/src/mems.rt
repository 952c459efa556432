//! The plans of the memories of a core.

ghost use Rattle.std.specs.Prelude.{◌≡◌, ℕ, ◌≤◌, ◌^◌, length, map, IfOk};
ghost use Rattle.sp_core.specs.CoreParts.{plain_core};
ghost use Rattle.sp_depths.specs.Depths.{depth_of};
ghost use Rattle.sp_plan.specs.Copies.{duplicates};
ghost use Rattle.sp_plan.specs.Plain.{plain_mem_plan, plain_node_plan};
ghost use Rattle.sp_plans.specs.Planned.{mem_by, mems_by};

use crate::NoMemory;
use sp_bank::Scheme;
use sp_core::Core;
use sp_depths::depth;
use sp_plan::{MemPlan, NodePlan, duplicates};
use std::alloc::Global;

/// A memory with this scheme, by the plans of the nodes.
fn mem_plan(core: &Core, nodes: &[NodePlan], m: u32, scheme: Option<Scheme>) -> MemPlan
    requires few_copies { depth_of (plain_core core.now) (map plain_node_plan nodes.now) m ≤ 2 ^ 30 }
    requires few_duplicates { duplicates (plain_core core.now) m ≤ 2 ^ 31 }
    ensures { plain_mem_plan result ≡ mem_by (plain_core core.now) (map plain_node_plan nodes.now) m scheme }
{
    MemPlan {
        scheme,
        depth: depth(core, nodes, m) as u32,
        duplicates: duplicates(core, m) as u32,
    }
}

/// The plans of the memories with these schemes, by number.
pub(crate) fn mem_plans(
    alloc: Global,
    core: &Core,
    nodes: &[NodePlan],
    schemes: Vec<Option<Scheme>>,
) -> Result<Vec<MemPlan>, NoMemory>
    requires few { length schemes.items ≤ 2 ^ 30 }
    requires few_copies { (m : ℕ) → depth_of (plain_core core.now) (map plain_node_plan nodes.now) m ≤ 2 ^ 30 }
    requires few_duplicates { (m : ℕ) → duplicates (plain_core core.now) m ≤ 2 ^ 31 }
    ensures { IfOk result (λ mems. map plain_mem_plan mems.items ≡ mems_by (plain_core core.now) (map plain_node_plan nodes.now) 0 schemes.items) }
{
    let mut mems = Vec::new(alloc);
    let mut m = 0;
    for scheme in schemes {
        mems.push(mem_plan(core, nodes, m, scheme))?;
        m += 1;
    }
    Ok(mems)
}
