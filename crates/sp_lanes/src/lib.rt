//! Cores whose lanes stand one after the other.
#![tactic(auto)]

mod examples;

pub use examples::{worked_cores_are_right, worked_lanes, worked_meanings, worked_single_lanes};
