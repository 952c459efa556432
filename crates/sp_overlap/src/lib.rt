//! Laws of plans: stages that overlap by a valid plan come in order. Each function does nothing: what it ensures is the law.
#![tactic(auto)]

mod laws;

pub use laws::{overlaps_come_in_turn, planned_runs_come_in_order, plans_are_sound};
