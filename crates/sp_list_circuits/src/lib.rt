//! Lists of operations that are done one after the other, as circuits: tests and states of FSMs, and tests of branches.
#![tactic(auto)]

mod issue;
mod timed;
mod times;
mod turns;

pub use timed::timed_ops;
pub use turns::{Turns, emit_turns};
