//! Netlists: their cells, the rules that they obey, what they do in a cycle and over a run, and a
//! builder that makes them without loops.
#![tactic(auto)]

mod builder;
mod cell;
mod check;
mod error;
mod laws;
mod loops;
mod netlist;
mod nets;
mod order;
mod parts;
mod tables;

pub use builder::Builder;
pub use cell::{Cell, CellOp, CellShift, NetId, Port};
pub use error::NetError;
pub use laws::{
    channel_serves, draft_laws, ending_kept, example_endings, locality, no_loop, one_ending,
    one_run, part_examples, quiet_run, refusals_exact,
};
pub use netlist::Netlist;
pub use order::evaluation_order;
pub use parts::{Child, Ends, Wire};
pub use std::alloc::AllocError as NoMemory;
