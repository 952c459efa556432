//! A core whose lanes stand one after the other.
#![tactic(auto)]

mod bodies;
mod combinations;
mod combined;
mod copied;
mod joined;
mod memories;
mod moved;
mod nodes;
mod order;
mod parts;
mod renamed;
mod shared;
mod unrolled;
mod within;

pub use copied::{copied_counters, copied_ops, copied_spans};
pub use memories::memories_in_lanes;
pub use std::alloc::AllocError as NoMemory;
pub use unrolled::{Unrolled, copied_ports, in_lanes, unroll};
