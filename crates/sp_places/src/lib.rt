//! Where an element of a memory in banks stands, as a circuit: its bank and its place there, from its indices.
#![tactic(auto)]

mod layout;
mod numbers;
mod place;
mod sums;

pub use layout::{Layout, Spot};
pub use place::locate;
