//! The plan of a core.

ghost use Rattle.std.specs.Prelude.{IfOk};
ghost use Rattle.sp_core.specs.CoreParts.{plain_core};
ghost use Rattle.sp_core.specs.Forms.{plain_forms};
ghost use Rattle.sp_plan.specs.Plain.{plain_plan};
ghost use Rattle.sp_plan.specs.Validity.{IsValid};
ghost use Rattle.sp_plans.specs.Planned.{IsPlanned};

use crate::NoMemory;
use crate::laws::{best_plans_have_few_copies, chosen_plans_are_valid};
use crate::mems::mem_plans;
use crate::nodes::node_plans;
use sp_core::{AccessForms, Core, Meets};
use sp_plan::Plan;
use sp_schemes::schemes;
use std::alloc::Global;

/// The plan of a core in lanes, by the forms of its accesses and by which of them may meet: for each memory the first
/// scheme by which it keeps its accesses apart, for each inner body the least times, for each outer body the finest slots
/// and chains, and as many copies and duplicates as these ask. It is valid for these forms and meets, whatever they are.
///
/// In time it takes that of `schemes`, and of `stages` or `schedule` for each node; these look the node up from the root.
pub fn planned(
    alloc: Global,
    core: &Core,
    forms: &AccessForms,
    meets: &Meets,
) -> Result<Plan, NoMemory>
    ensures chosen { IfOk result (λ plan. IsPlanned (plain_core core.now) (plain_forms forms.now) meets.now.pairs.items (plain_plan plan)) }
    ensures valid { IfOk result (λ plan. IsValid (plain_core core.now) (plain_forms forms.now) meets.now.pairs.items (plain_plan plan)) }
{
    chosen_plans_are_valid();
    best_plans_have_few_copies();
    let schemes = schemes(alloc, core, forms)?;
    let nodes = node_plans(alloc, core, meets, &schemes)?;
    let mems = mem_plans(alloc, core, &nodes, schemes)?;
    Ok(Plan { mems, nodes })
}
