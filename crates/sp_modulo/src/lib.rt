//! Times of operations that are done once in each group of iterations, where groups begin at a fixed interval.
#![tactic(auto)]

mod least;
mod order;
mod schedule;

pub use least::least_within;
pub use order::Order;
pub use schedule::{Schedule, are_fitting, end_of, least_schedule};
pub use std::alloc::AllocError as NoMemory;
