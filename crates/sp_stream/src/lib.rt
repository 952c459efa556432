//! Stream blocks of a core: which of them are proper.
#![tactic(auto)]

mod block;
mod examples;
mod fifos;
mod laws;
mod stages;

pub use block::proper;
pub use examples::{worked_blocks_are_cores, worked_broken_blocks, worked_proper_blocks};
pub use laws::{forests_have_no_circle, steps_suffice};
