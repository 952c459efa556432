//! Laws only. Each function does nothing: what it ensures is the law.
#![tactic(auto)]

mod bodies;
mod bodies_examples;
mod control;
mod fits;
mod runs;
mod runs_examples;

pub use bodies::{
    bounds_stand, counted_inners_work, counters_stand, given_nets_stand, lists_work, loops_tell,
    plans_are_paced, rows_stand, runs_take_bounds, single_inners_work, spans_stand,
};
pub use bodies_examples::worked_body;
pub use control::{branches_of_nodes_work, loops_of_nodes_work, machines_of_nodes_work};
pub use fits::{parts_fit, stages_take_time};
pub use runs::{
    bodies_are_told, bodies_come_in_turn, sides_are_told, sides_come_in_turn, stages_are_told,
    stages_come_in_turn,
};
pub use runs_examples::worked_parts;
