//! Laws only. Each function does nothing: what it ensures is the law.
#![tactic(auto)]

mod lanes;
mod programs;
mod timed;
mod timed_examples;

pub use lanes::programs_are_by_lane;
pub use programs::programs_end_in_lanes;
pub use timed::{nodes_are_timed, programs_are_timed};
pub use timed_examples::worked_programs;
