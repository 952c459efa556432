//! From a program to what is decided of it.
#![tactic(auto)]

mod choice;

pub use choice::{Planned, plan, plan_to_build};
pub use std::alloc::AllocError as NoMemory;
