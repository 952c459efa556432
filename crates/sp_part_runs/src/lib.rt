//! Laws only. Each function does nothing: what it ensures is the law.
#![tactic(auto)]

mod acts;
mod beats;
mod bodies;
mod control;
mod counted;
mod entries;
mod sequences;
mod steps;
mod words;

pub use acts::{accesses_agree, entries_are_done, words_agree};
pub use beats::{loops_are_in_timeline, loops_in_beats_work, worked_run};
pub use bodies::{bodies_act, bodies_end_at_once, bodies_issue, bodies_work, singles_work};
pub use control::{branches_work, machines_work};
pub use counted::{counters_tell, loops_work};
pub use entries::inner_runs_are_done;
pub use sequences::{sequences_are_in_timeline, sequences_work, worked_sequence};
pub use steps::{counted_loops_work, counters_step};
pub use words::{numbers_go_round, words_go_along};
