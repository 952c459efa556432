//! Gates: functions that each promise a net of a builder and add the cell that drives it. What is promised of a net is
//! an equation over time, in every run of every netlist that the builder's cells end up in. Emitters of circuits see
//! these equations, and no cell.
#![tactic(auto)]

mod bits;
mod gates;
mod laws;
mod tested;

pub use bits::{both, either, equals, negate, one, register};
pub use gates::{cast, choose, constant, delay, drive, hold, invert, operate, reserve, shift};
pub use laws::gate_laws;
pub use tested::{drive_after, on_both, on_either, on_not};
