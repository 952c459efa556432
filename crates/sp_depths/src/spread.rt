//! How far the slots of a memory's uses are apart.

ghost use Rattle.std.specs.Prelude.{◌≡◌, ℕ, List, ◌∷◌, [], None};
ghost use Rattle.sp_core.specs.CoreParts.{plain_core};
ghost use Rattle.sp_core.specs.Plain.{plain_stage_list};
ghost use Rattle.sp_depths.specs.Spread.{slots_with};
ghost use Rattle.sp_plan.specs.Copies.{used_slots, copies};
ghost use Rattle.sp_plan.specs.Plain.{plain_node_plan};

use sp_core::{Core, Stage};
use sp_plan::{NodePlan, uses};

/// The least and the greatest of some slots.
#[derive(Clone, Copy, Debug)]
pub struct Spread {
    pub least: u32,
    pub greatest: u32,
}

/// These slots and one more.
fn widened(met: Option<Spread>, slot: u32) -> Option<Spread>
    ensures { (slots : List ℕ) → slots_with result slots ≡ slots_with met (slot ∷ slots) }
{
    match met {
        None => Some(Spread {
            least: slot,
            greatest: slot,
        }),
        Some(spread) => Some(Spread {
            least: spread.least.min(slot),
            greatest: spread.greatest.max(slot),
        }),
    }
}

/// How many slots there are from the least to the greatest; one where there are none.
fn width(met: Option<Spread>) -> u64
    ensures { result ≡ slots_with met [] }
{
    match met {
        None => 1,
        Some(spread) => u64::from(spread.greatest).saturating_sub(u64::from(spread.least)) + 1,
    }
}

/// How many copies a memory has that a loop owns, by the slots of those of its stages that use it.
fn copies_by(core: &Core, m: u32, stages: &[Stage], slots: &[u32]) -> u64
    ensures { result ≡ slots_with None (used_slots (plain_core core.now) m (plain_stage_list stages.now) slots.now) }
{
    let mut met = None;
    let mut left = slots;
    for stage in stages {
        let [slot, rest @ ..] = left else {
            return width(met);
        };
        if uses(core, m, &stage.node) {
            met = widened(met, *slot);
        }
        left = rest;
    }
    width(met)
}

/// How many copies a memory has that a loop owns, by the loop's plan.
pub(crate) fn copies(core: &Core, m: u32, stages: &[Stage], plan: &NodePlan) -> u64
    ensures { result ≡ copies (plain_core core.now) m (plain_stage_list stages.now) (plain_node_plan plan.now) }
{
    match plan {
        NodePlan::Outer { slots, .. } => copies_by(core, m, stages, slots),
        _ => 1,
    }
}
