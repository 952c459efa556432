//! The finest slots and chains of outer bodies.
#![tactic(auto)]

mod chaining;
mod dividing;
mod examples;
mod finest;
mod laws;
mod leaders;
mod names;
mod pairs;
mod planned;
mod runs;

pub use examples::{worked_chains, worked_places, worked_slots};
pub use finest::{chains, slots};
pub use laws::{
    chains_by_leaders_are_finest, divided_slots_are_finest, finest_chains_are_right,
    finest_plans_are_right, finest_slots_are_right, stages_are_in_place,
};
pub use planned::{is_outer_of, stages};
pub use std::alloc::AllocError as NoMemory;
