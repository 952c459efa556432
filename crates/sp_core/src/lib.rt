//! The core tree of the compiler, before and after its lanes stand one after the other, and what it means.
#![tactic(auto)]

mod access;
mod core_tree;
mod error;
mod examples;
mod lanes;
mod laws;
mod memory;
mod memory_rules;
mod node;
mod node_rules;
mod operation;
mod operation_rules;
mod parts;
mod shown;
mod size;
mod typed;

pub use access::{AccessForms, Meet, Meets};
pub use core_tree::Core;
pub use error::CoreError;
pub use examples::{
    worked_cores_are_right, worked_costs, worked_events, worked_lanes, worked_limits, worked_loops,
    worked_meets, worked_shapes, worked_transfers,
};
pub use laws::{runs_are_footprints, runs_are_replayed, turns_suffice, wrong_cores_are_shown};
pub use memory::CoreMem;
pub use node::{CoreCounter, CoreSpan, Node, SparseKind, Stage};
pub use operation::{Op, OpKind};
