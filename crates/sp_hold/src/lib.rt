//! The forms of a core's accesses are what their indices are.
#![tactic(auto)]

mod laws;

pub use laws::{
    accesses_are_at_their_forms, accesses_have_entries, counters_have_their_values,
    indices_are_their_forms, words_are_like_forms,
};
