//! Memories as circuits: their words over time by what is done to them, and the words of their readers.
#![tactic(auto)]

mod copies;
mod laws;
mod part;
mod readers;
mod register;

pub use laws::words_of_copies;
pub use part::{Fresh, Register, Touch};
pub use register::emit_register;
