//! Where a loop first uses a memory.
ghost use Rattle.std.specs.Prelude.{◌≡◌, ℕ, List, ◌∷◌, [], None};
ghost use Rattle.sp_core.specs.CoreParts.{plain_core};
ghost use Rattle.sp_core.specs.Plain.{plain_stage_list};
ghost use Rattle.sp_machine.specs.Timeline.{slot_numbers};
ghost use Rattle.sp_plan.specs.Copies.{used_slots};
ghost use Rattle.sp_plan.specs.Plain.{plain_node_plan};
ghost use Rattle.sp_tree_handed.specs.Owners.{first_use, least_with};

use sp_core::{Core, Stage};
use sp_plan::{NodePlan, uses};

/// The lesser one of a slot and those before it.
#[tactic(auto, using(crate::proofs::Least::least_of_two))]
fn lesser(met: Option<u32>, slot: u32) -> Option<u32>
    ensures { (slots : List ℕ) → least_with result slots ≡ least_with met (slot ∷ slots) }
{
    match met {
        None => Some(slot),
        Some(other) => Some(other.min(slot)),
    }
}

/// The least slot that was met, and 0 where there is none.
fn least(met: Option<u32>) -> u32
    ensures { result ≡ least_with met [] }
{
    match met {
        None => 0,
        Some(slot) => slot,
    }
}

/// The least one of the slots of those stages that use a memory; 0 where none does.
fn first_by(core: &Core, m: u32, stages: &[Stage], slots: &[u32]) -> u32
    ensures { result ≡ least_with None (used_slots (plain_core core.now) m (plain_stage_list stages.now) slots.now) }
{
    let mut met = None;
    let mut left = slots;
    for stage in stages {
        let [slot, rest @ ..] = left else {
            return least(met);
        };
        if uses(core, m, &stage.node) {
            met = lesser(met, *slot);
        }
        left = rest;
    }
    least(met)
}

/// The slot of each stage, by a loop's plan.
pub fn stage_slots(plan: &NodePlan) -> &[u32]
    ensures { result.now ≡ slot_numbers (plain_node_plan plan.now) }
{
    match plan {
        NodePlan::Outer { slots, .. } => slots,
        _ => &[],
    }
}

/// The least number of the slots of those stages of a loop that use a memory, by the loop's plan; 0 where none does.
pub fn first_slot(core: &Core, m: u32, stages: &[Stage], plan: &NodePlan) -> u32
    ensures { result ≡ first_use (plain_core core.now) (plain_node_plan plan.now) (plain_stage_list stages.now) m }
{
    let slots = stage_slots(plan);
    first_by(core, m, stages, slots)
}
