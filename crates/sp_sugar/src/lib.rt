//! From typed programs to cores: the sugar is removed.
#![tactic(auto)]

mod examples;
mod laws;

pub use examples::{worked_cores, worked_cores_are_right, worked_meanings};
pub use laws::{
    cores_are_small, declarations_are_right, element_loops_keep_rules, expressions_are_followed,
    expressions_keep_rules, inner_bodies_keep_rules, inner_runs_are_followed, memories_have_owners,
    programs_become_cores,
};
