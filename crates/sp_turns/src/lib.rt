//! A core goes around no oftener than its program takes turns.
#![tactic(auto)]

mod laws;

pub use laws::rounds_are_within_turns;
