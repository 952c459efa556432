//! The operations of a core's list as those of a circuit.
#![tactic(auto)]

mod laws;
mod ops;

pub use laws::{awaited_operations_fit, placed_operations_fit};
pub use ops::{WordNet, circuit_ops};
