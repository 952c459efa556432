//! The frame around the gates and the banks of a netlist that stores to no DRAM: the cells of its arguments and DRAMs before them, the
//! cells of its outputs and its end behind them.
#![tactic(auto)]

mod closing;
mod drams;
mod inputs;
mod laws;
mod worked;

pub use closing::{add_outputs, close_frame};
pub use drams::add_drams;
pub use inputs::add_inputs;
pub use laws::{frame_laws, frames_end, port_laws, taps_share_none};
pub use worked::worked_frame;
