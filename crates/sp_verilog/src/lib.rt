//! The Verilog text of a netlist: one module, with a fixed pattern for each kind of cell.
#![tactic(auto)]

mod arithmetic;
mod cells;
mod computed;
mod memories;
mod module;
mod nets;
mod pieces;

pub use module::{verilog, wires};
pub use nets::NetLine;
pub use std::alloc::AllocError as NoMemory;
