//! Laws only. Each function does nothing: what it ensures is the law.
#![tactic(auto)]

mod plans;
mod runs;

pub use plans::{
    program_plans_are_sound, programs_end_within, programs_have_plans, programs_run_in_time,
};
pub use runs::{laned_programs_run_well, narrow_programs_run_well, programs_run_well};
