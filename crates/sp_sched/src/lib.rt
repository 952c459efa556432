//! The least times of inner bodies.
#![tactic(auto)]

mod body;
mod laws;
mod least;
mod orders;

pub use laws::least_plans_are_right;
pub use least::schedule;
pub use std::alloc::AllocError as NoMemory;
