//! What a loop in beats has beside its members: its counters with their bounds, the wires that go along with its groups, and the
//! nets around the stages of a slot.
#![tactic(auto)]

mod laws;
mod opening;
mod rows;
mod slots;

pub use laws::{left_are_reserved, rows_stay, rows_take_words};
pub use opening::{OpenLoop, open_loop};
pub use rows::{Rows, open_rows};
pub use slots::slot_table;
