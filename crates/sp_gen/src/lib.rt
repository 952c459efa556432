//! Generated programs: each number has one, and an input for it.
#![tactic(auto)]

mod draws;
mod error;
mod generated;
mod given;
mod laws;
mod numbers;
mod text;

pub use error::GenError;
pub use generated::generate;
pub use laws::worked_numbers;
pub use std::alloc::AllocError as NoMemory;
pub use text::program_text;
