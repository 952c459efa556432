//! Laws only. Each function does nothing: what it ensures is the law.
#![tactic(auto)]

mod choice;
mod runs;

pub use choice::{chosen_plans_are_brisk, chosen_plans_keep_to_limit};
pub use runs::{brisk_plans_cost_within, brisk_runs_end_within};
