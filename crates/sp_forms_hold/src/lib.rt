//! Laws only. Each function does nothing: what it ensures is the law.
#![tactic(auto)]

mod groups;
mod hold;
mod runs;

pub use groups::{cores_keep_symbols, lists_keep_symbols, nodes_keep_symbols};
pub use hold::{counts_hold, forms_hold, nodes_hold, slices_hold};
pub use runs::{controllers_are_entered, lists_hold, parts_stand_at_their_numbers};
