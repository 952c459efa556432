//! The words of a core fit their types.
#![tactic(auto)]

mod laws;

pub use laws::{lists_fit, nodes_fit, runs_fit, stores_fit};
