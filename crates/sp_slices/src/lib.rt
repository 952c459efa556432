//! The circuit that walks through a slice of a memory outside, word by word: where each word stands in the memory, how far into
//! each range it is, and whether it is the last one.
#![tactic(auto)]

mod addresses;
mod axes;
mod counts;
mod part;
mod some;
mod walking;
mod wide;

pub use addresses::address;
pub use part::{Axis, Move, Walk};
pub use some::has_word;
pub use walking::{range_offsets, walk};
