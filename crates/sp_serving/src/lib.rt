//! Whether the scheme of a memory serves it: a test that takes no memory.
#![tactic(auto)]

mod apart;
mod bodies;
mod forms;
mod lanes;
mod serving;
mod standing;

pub use serving::serves;
