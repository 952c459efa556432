//! What runs cost is within the limit of a program. Each function does nothing: what it ensures is the law.
#![tactic(auto)]

mod laws;

pub use laws::costs_are_within;
