//! How programs run by the plans that are decided of them.
#![tactic(auto)]

mod examples;
mod laws;

pub use examples::worked_program;
pub use laws::{plans_as_compiled_are_chosen, programs_as_compiled_run_well};
