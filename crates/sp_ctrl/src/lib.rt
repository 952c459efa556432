//! Control: which parts of a circuit are run, one after the other.
#![tactic(auto)]

mod choices;
mod emitting;
mod examples;
mod part;

pub use emitting::emit;
pub use examples::worked_branch;
pub use part::Part;
