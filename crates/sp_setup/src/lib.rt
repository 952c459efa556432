//! Setups: the texts that say how a program or a listing is run.
#![tactic(auto)]

mod cells;
mod drams;
mod error;
mod laws;
mod number;
mod reading;
mod settings;
mod setup;
mod table;

pub use cells::{MOST_WORDS, dram_sizes_fit};
pub use drams::LONGEST_FILE;
pub use error::{SetupEnd, SetupError};
pub use laws::{
    documents_are_told_apart, number_texts_have_parts, setups_are_not_refused, setups_are_one,
};
pub use setup::{Setup, read};
