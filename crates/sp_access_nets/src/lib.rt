//! The accesses of the lists of a core in a circuit, one by one, for the memories that answer them.
#![tactic(auto)]

mod access;
mod laws;
mod picking;
mod splitting;

pub use access::AccessNets;
pub use laws::{
    each_has_access, each_is_of_operation, picks_accesses_to, reserved_are_answers,
    rules_name_memories, worked_accesses,
};
pub use picking::{accesses_to, is_to};
pub use splitting::accesses_of;
