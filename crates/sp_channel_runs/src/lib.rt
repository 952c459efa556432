//! Laws of channels over all transfers of a run: which delay is whose, and when words move.
#![tactic(auto)]

mod laws;

pub use laws::{channels_follow, delays_are_small, transfers_follow, worked_channel};
