//! How much stands in a program: seven counts, each with a greatest number.
#![tactic(auto)]

mod copies;
mod forest;
mod lanes;
mod nodes;
mod outside;
mod over;
mod pieces;
mod proper;
mod stages;
mod stream;
mod tally;
mod words;

pub use over::{Over, Which, first_over};
pub use proper::{add_roomy, is_proper};
pub use std::alloc::AllocError as NoMemory;
