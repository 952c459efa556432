//! When what happens in a run of a core happens, by the numbers of a plan.
#![tactic(auto)]

mod examples;
mod laws;

pub use examples::{worked_lengths, worked_parts, worked_timelines};
pub use laws::{
    bodies_come_in_order, cores_end_in_their_cost, histories_are_counted, one_slot_comes_in_turn,
    orders_are_found_in_time, outer_bodies_come_in_order, runs_come_in_order, runs_happen_within,
    runs_keep_to_their_cost, stages_work_in_beats, timelines_tell_all,
};
