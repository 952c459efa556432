//! Laws only. Each function does nothing: what it ensures is the law.
#![tactic(auto)]

mod along;
mod met;

pub use along::{events_have_spots, runs_go_up};
pub use met::{
    counters_have_steps, groups_go_on, later_groups_follow, met_accesses_stand,
    places_are_at_one_loop, places_are_in_one_turn, runs_are_apart, runs_are_in_order,
    runs_are_traced,
};
