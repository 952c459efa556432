//! The memories of a core as circuits: those of one word, which are registers, arguments and outputs (`scalar_*`), FIFOs (`fifo_*`), and
//! SRAMs and all memories of a core together (`array_*`).
#![tactic(auto)]

mod array_adding;
mod array_array;
mod array_arrays;
mod array_duplicates;
mod array_laws;
mod array_lists;
mod array_memories;
mod array_shape;
mod fifo_adding;
mod fifo_fifos;
mod fifo_puts;
mod fifo_shape;
mod scalar_followers;
mod scalar_lists;
mod scalar_scalars;

pub use array_adding::add_arrays;
pub use array_array::Array;
pub use array_laws::{arrays_are_open, arrays_share_none, arrays_stay, valid_plans_have_arrays};
pub use array_memories::{MemoryNets, emit_memories};
