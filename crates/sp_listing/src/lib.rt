//! Listings: the text of a netlist, one line a cell.
#![tactic(auto)]

mod cells;
mod counts;
mod declared_lines;
mod error;
mod kind;
mod laws;
mod line_ends;
mod lines;
mod names;
mod parts;
mod reader;
mod reading;
mod words;

pub use error::ListError;
pub use laws::{
    listing_breaks_nowhere, listing_has_one_reading, netlist_reads_back, text_breaks_at_one_line,
};
pub use lines::write;
pub use reader::read;
pub use std::alloc::AllocError as NoMemory;
pub use words::TypeCode;
