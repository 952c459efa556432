//! Inner bodies as circuits: each operation at its time after the issue of its group, a group at each interval.
#![tactic(auto)]

mod access;
mod body;
mod emitting;
mod examples;
mod issue;
mod kinds;
mod laws;
mod listed;
mod masks;
mod operands;
mod operators;
mod part;
mod words;

pub use emitting::emit;
pub use examples::{worked_body, worked_list};
pub use laws::bodies_run_in_time;
pub use listed::{Listed, emit_list};
pub use part::{Act, Groups, Part, PipeOp};
