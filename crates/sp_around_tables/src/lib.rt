//! The nets of the counters around, inside of a controller.
#![tactic(auto)]

mod laws;
mod table;

pub use laws::{counters_stand_inside, counters_stand_later};
pub use table::with_counters;
