//! Laws of transfers: what one does that is started, whatever the cycles in which its channel is ready.
#![tactic(auto)]

mod laws;

pub use laws::{loads_write, slices_are_loops, slices_move};
