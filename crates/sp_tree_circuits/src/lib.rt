//! The circuit of a tree of nodes as equations over all cycles: laws of what it does over all runs of its root, and a worked one.
#![tactic(auto)]

mod examples;
mod laws;
mod worked;

pub use examples::worked_masks;
pub use laws::{
    circles_close, circuits_are_built, circuits_go_as_told, cores_go_as_told, loops_are_told,
};
pub use worked::worked_circuit;
