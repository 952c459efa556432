//! The circuit of a tree of nodes of a core, put together node by node.
#![tactic(auto)]

mod branches;
mod loops;
mod machines;
mod moves;
mod nodes;
mod owners;
mod tree;
mod whole;

pub use nodes::emit_node;
pub use tree::TreeNets;
pub use whole::emit_core;
