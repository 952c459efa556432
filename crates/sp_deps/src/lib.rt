//! Which accesses of a loop may touch one element, and how many groups of iterations apart.
#![tactic(auto)]

mod access;
mod checks;
mod class;
mod divisor;
mod examples;
mod laws;
mod pairs;
mod stages;
mod sum;
mod terms;
mod value;

pub use access::{Access, Dist, Footprint, LoopRange};
pub use checks::{are_loop_ranges, has_counters, is_footprint};
pub use examples::{worked_earlier_counters, worked_steps};
pub use laws::{distances_are_sound, stages_are_sound};
pub use pairs::distance;
pub use stages::stage_meet;
