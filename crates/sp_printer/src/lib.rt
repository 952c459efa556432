//! The canonical text of a typed program.
#![tactic(auto)]

mod body;
mod expressions;
mod names;
mod pieces;
mod program;
mod statements;
mod types;
mod words;

pub use program::print;
pub use std::alloc::AllocError as NoMemory;
