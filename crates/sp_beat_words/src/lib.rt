//! What goes with the groups of a loop in beats from slot to slot: words, and the numbers of copies.
#![tactic(auto)]

mod examples;
mod numbers;
mod part;
mod words;

pub use examples::worked_numbers;
pub use numbers::emit_number;
pub use part::{Row, Turn};
pub use words::emit_words;
