//! The schemes that are chosen for the memories of a core.
#![tactic(auto)]

mod accesses;
mod chosen;
mod groups;
mod laws;
mod standing;

pub use chosen::schemes;
pub use laws::chosen_schemes_are_right;
pub use standing::places;
pub use std::alloc::AllocError as NoMemory;
