//! The typed program of a tree, or its first refusal.
#![tactic(auto)]

mod declared;
mod error;
mod parts;
mod ports;
mod program;
mod texts;

pub use error::TypeError;
pub use program::check;
pub use sp_counts::Which;
pub use sp_types::Found;
pub use std::alloc::AllocError as NoMemory;
