//! Laws only. Each function does nothing: what it ensures is the law.
#![tactic(auto)]

mod bodies;
mod control;
mod control_examples;

pub use bodies::{
    bodies_go_as_told, inners_run_so, lists_do, loops_have_groups, parts_are_done, runs_are_done,
    tests_tell, turns_tell,
};
pub use control::{trees_do_their_runs, trees_go_as_told};
pub use control_examples::worked_control;
