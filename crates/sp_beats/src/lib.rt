//! The circuit of a loop whose slots work at once, each on a group of its own: beat after beat the groups move on.
#![tactic(auto)]

mod emitting;
mod examples;
mod part;
mod slots;

pub use emitting::emit;
pub use examples::worked_beats;
pub use part::Beats;
