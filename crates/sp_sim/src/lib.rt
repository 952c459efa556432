//! A simulator of netlists, cycle by cycle.
#![tactic(auto)]

mod conflict;
mod end;
mod given;
mod hold;
mod levels;
mod load;
mod memory;
mod over;
mod phase;
mod program;
mod row;
mod run;
mod same;
mod serve;
mod settle;
mod sim;
mod state;
mod step;
mod write;

pub use end::{SimEnd, SimLoad};
pub use sim::Sim;
pub use std::alloc::AllocError as NoMemory;
