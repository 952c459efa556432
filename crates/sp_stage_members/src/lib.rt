//! The stages of a loop as the members of its circuit, in the places that a plan gives them.
#![tactic(auto)]

mod arranging;
mod laws;
mod members;
mod part;
mod placed;
mod wanted;

pub use arranging::arrange;
pub use laws::{
    members_are_circuits, single_lanes_are_first, stages_have_lanes, stages_stand_once,
    worked_places,
};
pub use members::stage_members;
pub use part::StagePart;
pub use placed::{PlacedChain, PlacedSlot};
pub use wanted::wanted_net;
