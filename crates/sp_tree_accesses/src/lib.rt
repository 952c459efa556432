//! The accesses of the lists of a core's tree, one by one, for the memories that answer them.
#![tactic(auto)]

mod laws;
mod tree;
mod walk;

pub use laws::{
    accesses_act, accesses_are_of_core, answers_are_of_reads, operations_have_accesses,
    scalars_are_read, trees_are_answered,
};
pub use tree::tree_accesses;
pub use walk::append;
