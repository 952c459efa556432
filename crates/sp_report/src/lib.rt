//! The report of a plan: what is decided of each memory and of each node, as text.
#![tactic(auto)]

mod memories;
mod nodes;
mod text;

pub use std::alloc::AllocError as NoMemory;
pub use text::report;
