//! Laws only, of cores whose memories are registers, arguments, outputs, SRAMs and FIFOs: what memories of one word (`scalar_*`), FIFOs
//! (`fifo_*`) and SRAMs (`array_*`) answer in a run, and that the circuit goes along with the timeline. Each function does nothing: what it
//! ensures is the law.
#![tactic(auto)]

mod array_examples;
mod array_laws;
mod closing;
mod fifo_laws;
mod outside;
mod quiet;
mod scalar_laws;

pub use array_examples::{worked_load, worked_store};
pub use array_laws::{nothing_is_loaded, nothing_is_stored};
pub use closing::stored_cores_go;
pub use outside::first_words_given;
pub use scalar_laws::outputs_are_left;
