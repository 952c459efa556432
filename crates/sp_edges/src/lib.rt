//! The outside of the compiler: where texts come from and where they go to.
//!
//! `Inputs` gives what stands under a name, `Sink` takes bytes. Each counts its faults, and a contract
//! says which bytes were read or taken, that no call fails unless the count of faults rose in it, and which calls
//! were made: the names that were asked for, with their answers, and the pieces that were put.
//! `MemInputs` and `MemSink` keep everything in memory and can be told to fail; `HostInputs` and
//! `HostSink` are the machine's files and its standard output.
#![tactic(auto)]

mod faults;
mod host_input;
mod host_output;
mod input;
mod laws;
mod memory_input;
mod memory_output;
mod output;

pub use host_input::HostInputs;
pub use host_output::HostSink;
pub use input::{InputFault, Inputs};
pub use laws::{beginnings_are_fronts, counts_rise, texts_have_one_cut};
pub use memory_input::{MemFile, MemInputs};
pub use memory_output::{MemSink, SinkStop};
pub use output::{Sink, SinkFailed, put_text};
pub use std::alloc::AllocError as NoMemory;
