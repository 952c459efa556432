//! The commands of the compiler, from the words of the command line to the bytes on the sinks.
#![tactic(auto)]

mod check;
mod compile;
mod format;
mod laws;
mod lines;
mod netlist_run;
mod reads;
mod report;
mod result_text;
mod seq;
mod simulate;
mod sinks;
mod status;
mod top;

pub use laws::refusals_refuse;
pub use status::{SinkName, Status};
pub use top::spatialc;
