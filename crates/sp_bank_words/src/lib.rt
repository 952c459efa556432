//! Memories in banks in the cycles of a timeline: how a memory lies in banks by a plan, and laws. Where the accesses of a memory's
//! circuit act at the events of a timeline up to a cycle, its copies hold the words of the timeline up to the next one.
#![tactic(auto)]

mod examples;
mod laws;
mod layout;

pub use examples::{worked_accesses, worked_index, worked_layout, worked_numbers, worked_run};
pub use laws::{
    accesses_are_served, lines_hold_words, memories_hold_words, operations_go, plans_have_layouts,
    timelines_are_by_accesses,
};
pub use layout::layout_of;
