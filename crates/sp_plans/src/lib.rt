//! The plan of a core, put together from its parts.
#![tactic(auto)]

mod core_plan;
mod laws;
mod mems;
mod nodes;

pub use core_plan::planned;
pub use laws::{best_plans_have_few_copies, chosen_plans_are_valid, plans_are_valid_by_parts};
pub use std::alloc::AllocError as NoMemory;
