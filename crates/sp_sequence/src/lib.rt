//! Parts of a circuit that are run one after the other and at once: members in chains, chains in slots.
#![tactic(auto)]

mod chains;
mod members;
mod part;
mod slots;

pub use chains::{emit_chains, emit_end};
pub use part::{Chain, Member, Sequence, Slot};
pub use slots::emit;
