//! The run of a netlist as a value change dump, which waveform viewers open (IEEE 1364-2005, clause 18).
#![tactic(auto)]

mod change;
mod dump;
mod header;
mod identifier;
mod laws;
mod signal;

pub use dump::waves;
pub use laws::identifiers_differ;
pub use std::alloc::AllocError as NoMemory;
