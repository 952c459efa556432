//! The ports of a core's arguments and outputs, by the numbers of their memories.
#![tactic(auto)]

mod laws;
mod nets;

pub use laws::{arguments_are_ports, arguments_have_words, arguments_stand, outputs_are_ports};
pub use nets::{argument_nets, output_nets};
