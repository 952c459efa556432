//! The meets of a core: which of its accesses may touch one element, and how many groups of iterations apart.
#![tactic(auto)]

mod access;
mod changed;
mod collect;
mod examples;
mod indices;
mod least;
mod pairs;
mod range;
mod spot;
mod steps;
mod transfer;
mod view;
mod walk;

pub use collect::meets;
pub use examples::{worked_loops, worked_numbers, worked_stages, worked_transfers};
pub use least::least_distance;
pub use std::alloc::AllocError as NoMemory;
