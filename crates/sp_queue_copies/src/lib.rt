//! The copies of a queue: each is a ring of places in its own bank, into which the puts at it go.
#![tactic(auto)]

mod copies;
mod events;

pub use copies::emit_copies;
