//! Counters of a loop as circuits: bounds that are taken at the start, values that go on at each step, lanes past the end
//! masked.
#![tactic(auto)]

mod bounds;
mod counter;
mod counting;
mod laws;
mod masks;
mod part;
mod wide;

pub use counting::emit;
pub use laws::counters_run_through_groups;
pub use part::{Count, Counted, Counter, Counters};
