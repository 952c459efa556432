//! Memories in banks in the runs of a core by a valid plan: their circuits hold the words of the timeline. Each function
//! does nothing but call the laws that it uses: what it ensures is the law.
#![tactic(auto)]

mod laws;

pub use laws::{runs_hold_rows, runs_hold_words, valid_plans_go_well};
