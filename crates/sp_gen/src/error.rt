//! Why nothing is generated.
use crate::NoMemory;
use sp_source::SourceError;

/// The refusal of a number. Want of memory is `Memory`, and stands in no other variant.
#[derive(Clone, Copy, Debug, PartialEq, Eq, Drop)]
pub enum GenError {
    /// The text of the program is refused.
    Text(SourceError),
    Memory,
}

impl From<NoMemory> for GenError {
    ghost use Rattle.std.specs.Prelude.{◌≡◌};
    ghost use Rattle.sp_gen.specs.declared.error.GenError.TheVariants.{Memory};

    ghost from_gives = { λ _ e. e ≡ Memory };

    fn from(_error: NoMemory) -> GenError {
        GenError::Memory
    }
}
