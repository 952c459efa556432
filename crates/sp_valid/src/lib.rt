//! Whether a plan of a core is valid: a test that takes no memory.
#![tactic(auto)]

mod mems;
mod nodes;
mod validity;

pub use validity::valid;
