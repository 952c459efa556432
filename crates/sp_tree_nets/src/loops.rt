//! What a loop with stages has beside these.
ghost use Rattle.std.specs.Prelude.{◌≡◌, ◌++◌, length, IfOk};
ghost use Rattle.sp_plan.specs.Plain.{plain_node_plan};
ghost use Rattle.sp_machine.specs.Timeline.{slot_numbers, slots_of};
ghost use Rattle.sp_stage_places.specs.Arranged.{arranged};
ghost use Rattle.sp_stage_members.specs.Placed.{StandOnce, places_of};

use crate::tree::append;
use sp_netlist::NoMemory;
use sp_op_nets::ActedList;
use sp_plan::NodePlan;
use sp_stage_members::{PlacedSlot, StagePart, arrange};
use sp_tree_handed::{TreeMove, TreeOwners};
use std::alloc::Global;

/// The stages of a loop as parts of it, the operations of their lists, in the order of their numbers, what the owners in them do, and
/// the transfers in them.
#[derive(Debug, Drop)]
pub(crate) struct Stages {
    pub(crate) parts: Vec<StagePart>,
    pub(crate) acted: Vec<ActedList>,
    pub(crate) owners: TreeOwners,
    pub(crate) moves: Vec<TreeMove>,
}

/// One of them.
#[derive(Debug, Drop)]
pub(crate) struct OneStage {
    pub(crate) part: StagePart,
    pub(crate) acted: Vec<ActedList>,
    pub(crate) owners: TreeOwners,
    pub(crate) moves: Vec<TreeMove>,
}

/// The stages of a loop in their places, by its plan. Where it hasn't a chain for each slot, it answers want of memory.
pub(crate) fn stage_places(alloc: Global, plan: &NodePlan) -> Result<Vec<PlacedSlot>, NoMemory>
    ensures places { IfOk result (λ placed. places_of placed.items ≡ arranged (slots_of (plain_node_plan plan.now))) }
    ensures each { IfOk result (λ placed. length (slot_numbers (plain_node_plan plan.now)) ≡ length (slots_of (plain_node_plan plan.now))) }
    ensures once { IfOk result (λ placed. StandOnce (length (slots_of (plain_node_plan plan.now))) (places_of placed.items)) }
{
    match plan {
        NodePlan::Outer { slots, chains } => {
            if slots.len() != chains.len() {
                return Err(NoMemory);
            }
            let placed = arrange(alloc, slots, chains)?;
            Ok(placed)
        }
        _ => Err(NoMemory),
    }
}

/// The lists of a loop's bounds, and behind them those of its stages.
pub(crate) fn loop_lists(
    bounds: Vec<ActedList>,
    inside: Vec<ActedList>,
) -> Result<Vec<ActedList>, NoMemory>
    ensures { IfOk result (λ all. all.items ≡ bounds.items ++ inside.items) }
{
    let mut all = bounds;
    append(&mut all, inside)?;
    Ok(all)
}
