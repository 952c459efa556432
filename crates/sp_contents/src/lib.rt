//! Laws of copies: what happens in the order of the text happens in the copies of memories over time. Each function does
//! nothing: what it ensures is the law.
#![tactic(auto)]

mod laws;

pub use laws::{
    copies_follow, first_contents_agree, planned_runs_are_found, runs_are_allowed, runs_are_inside,
    runs_stay,
};
