//! From a program to its netlist.
#![tactic(auto)]

mod buildable;
mod built;
mod latencies;
mod laws;

pub use buildable::is_buildable;
pub use built::build;
pub use laws::{
    buildable_cores_can_be_lowered, cores_carry_programs, cores_keep_costs,
    inner_blocks_can_be_built,
};
pub use std::alloc::AllocError as NoMemory;
