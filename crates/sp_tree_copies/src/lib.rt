//! The numbers of copies of the memories that loops own, behind the circuit of a tree: nets that have them, and for each operation and
//! each owner the net of its memory's copy.
#![tactic(auto)]

mod copies;
mod loops;
mod names;
mod numbers;
mod walk;

pub use copies::{NamedCopies, emit_copies};
