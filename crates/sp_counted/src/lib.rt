//! Inner bodies under counters: what the equations of both together give.
#![tactic(auto)]

mod laws;

pub use laws::counted_bodies_run_in_time;
