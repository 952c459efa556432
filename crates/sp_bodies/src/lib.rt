//! Bodies of programs do what their nodes do.
#![tactic(auto)]

mod laws;

pub use laws::bodies_are_followed;
