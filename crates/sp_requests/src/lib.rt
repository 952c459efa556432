//! What accesses to a memory in banks ask of each bank of each copy.
#![tactic(auto)]

mod asking;
mod laws;
mod locating;
mod part;

pub use asking::{accesses_to, words_asked};
pub use laws::requests_are_accesses;
pub use locating::requests;
pub use part::Request;
