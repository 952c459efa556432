//! The core of a program in lanes: what of it has lanes, how large it is, how combinations end its bodies, and that it is a core.
#![tactic(auto)]

mod endings;
mod laned;
mod laws;
mod sizes;

pub use endings::programs_end;
pub use laned::{programs_are_laned, programs_are_light, programs_have_lanes};
pub use laws::{laned_cores_keep_rules, programs_stand_apart, programs_stay_cores};
pub use sizes::{programs_stay_small, worked_weights};
