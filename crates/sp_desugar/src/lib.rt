//! From typed programs to cores: the parts of the code that removes the sugar from bodies with stages.
#![tactic(auto)]

mod combines;
mod early;
mod last;
mod nodes;
mod owned;
mod program;
mod registers;
mod stages;
mod transfers;
mod tree;
mod uses;

pub use program::desugar;
pub use std::alloc::AllocError as NoMemory;
