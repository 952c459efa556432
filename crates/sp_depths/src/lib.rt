//! How many copies memories have: one for each slot from the first in which a stage uses them to the last.
#![tactic(auto)]

mod depths;
mod laws;
mod spread;

pub use depths::depth;
pub use laws::depths_are_right;
