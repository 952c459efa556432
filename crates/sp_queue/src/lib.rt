//! A queue as a circuit: a list of words for each of its copies.
#![tactic(auto)]

mod laws;
mod part;
mod queue;
mod takes;

pub use laws::queues_give_first_words;
pub use part::Queue;
pub use queue::emit_queue;
