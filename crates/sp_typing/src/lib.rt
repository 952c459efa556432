//! That a tree without refusals spells a typed program.
#![tactic(auto)]

mod examples;
mod laws;

pub use examples::worked_trees_are_right;
pub use laws::{bodies_are_typed, expressions_leave_accumulators, right_trees_are_programs};
