//! The stream blocks of the core of a program are proper.
#![tactic(auto)]

mod examples;
mod laws;

pub use examples::worked_programs;
pub use laws::stream_blocks_are_proper;
