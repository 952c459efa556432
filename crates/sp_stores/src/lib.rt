//! The ports of all banks of a memory: which requests each of them serves.
#![tactic(auto)]

mod line;
mod lines;
mod serving;

pub use lines::write_lines;
pub use serving::serve_all;
