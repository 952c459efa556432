//! The typed program of a program's text.
#![tactic(auto)]

mod error;
mod laws;
mod source;

pub use error::SourceError;
pub use laws::{spelled_texts_are_not_refused, texts_spell_one_program};
pub use source::program_of_text;
