//! Laws only: the stages of a plan in the places of members. Each function does nothing: what it ensures is the law.
#![tactic(auto)]

mod laws;

pub use laws::{plans_have_places, stages_are_arranged, worked_places};
