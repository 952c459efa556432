//! A queue in one bank: its words stand in a ring of places, from the oldest one on.
#![tactic(auto)]

mod laws;
mod part;
mod places;
mod ring;

pub use laws::{rings_are_queues, worked_queue};
pub use part::{Asked, Ring};
pub use ring::emit_ring;
