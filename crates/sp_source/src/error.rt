//! Why a text gives no program.
use sp_check::TypeError;
use sp_reader::ReadError;

/// The refusal of a text. Want of memory is `Memory`, and stands in no other variant.
#[derive(Clone, Copy, Debug, PartialEq, Eq, Drop)]
pub enum SourceError {
    /// The text isn't one of the grammar, or passes a limit of texts.
    Read(ReadError),
    /// Its tree breaks a rule of names and types, or a count is past its limit.
    Types(TypeError),
    Memory,
}
