//! The core of a program ends as the program does.
#![tactic(auto)]

mod laws;

pub use laws::programs_are_followed;
