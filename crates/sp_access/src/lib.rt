//! Which of several accesses a port of a bank serves.
#![tactic(auto)]

mod access;
mod asking;
mod laws;

pub use access::Access;
pub use asking::{asked, place_asked};
pub use laws::agreeing_accesses;
