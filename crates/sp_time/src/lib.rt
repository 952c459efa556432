//! Events in time, what stands at a place in a cycle, and the beats of a loop whose stages overlap.
#![tactic(auto)]

mod laws;

pub use laws::{
    beats_in_order, contents_in_time, costs_bound, outers_in_order, overlap_example, stages_suffice,
};
