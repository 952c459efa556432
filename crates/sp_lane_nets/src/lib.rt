//! What a lane of a loop has as nets: the word of the counter in it, and whether some lanes have an iteration.
#![tactic(auto)]

mod laws;
mod live;
mod words;

pub use laws::lanes_have_words;
pub use live::some_live;
pub use words::lane_word;
