//! The circuit of a loop in beats, closed round its stages.
#![tactic(auto)]

mod closing;
mod laws;
mod masks;

pub use closing::close_loop;
pub use laws::{
    closed_loops_are_circuits, loops_fit, masks_stand, nets_are_apart, parts_of_loops_fit,
};
