//! A worked loop in beats, as a whole netlist.
#![tactic(auto)]

mod rows;
mod worked;

pub use worked::worked_loop;
