//! A core whose loads and stores each have one lane: its definition, laws of it, and its nodes as code.
#![tactic(auto)]

mod laws;
mod nodes;

pub use laws::{
    narrow_cores_go_no_oftener, narrow_cores_have_less_limits, narrow_cores_run_alike,
    narrow_cores_stay_by_lane, narrow_cores_stay_cores, timed_cores_are_narrow,
};
pub use nodes::narrow_node;
