//! A memory in banks as a circuit: an array for each of its copies.
#![tactic(auto)]

mod banked;
mod banks;
mod laws;
mod part;
mod readers;

pub use banked::emit_banked;
pub use banks::add_banks;
pub use laws::{memories_are_arrays, worked_memory};
pub use part::Banked;
pub use readers::emit_readers;
