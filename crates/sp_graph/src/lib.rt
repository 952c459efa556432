//! Directed graphs, and the groups of nodes that lie on cycles together.
#![tactic(auto)]

mod connected;
mod graph;
mod search;

pub use connected::{components, numbers_tell_components};
pub use graph::Graph;
pub use std::alloc::AllocError as NoMemory;
