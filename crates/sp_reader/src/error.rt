//! Why a text is not read.
ghost use Rattle.std.specs.Prelude.{◌≡◌};
ghost use Rattle.sp_reader.specs.declared.error.Stop.TheVariants.{Memory};

use std::alloc::{AllocError, AllocFailed};
use thiserror::Error;

/// The refusal of a text. `at` is a byte of the text, or its length.
#[derive(Clone, Copy, Debug, PartialEq, Eq, Drop, Error)]
pub enum ReadError {
    /// The first byte at which the text isn't UTF-8.
    #[error("not text at {at}")]
    NotText { at: u32 },
    /// The first token, or the end of the text, with which no text of the grammar begins.
    #[error("no parse at {at}")]
    NoParse { at: u32 },
    /// The first token at which more than 64 brackets are open, or which is the 65th operator in its place.
    #[error("too deep at {at}")]
    TooDeep { at: u32 },
    /// The first number of `2^128` and more, or with more than 64 digits after its point.
    #[error("literal too wide at {at}")]
    LiteralTooWide { at: u32 },
    #[error("out of memory")]
    Memory,
}

/// Why the grammar gives no tree of tokens: none of its texts goes on with the token that is refused, the
/// first of so many that are left.
#[derive(Clone, Copy, Debug, PartialEq, Eq)]
pub enum Stop {
    NoParse { left: usize },
    Memory,
}

impl From<AllocError> for Stop {
    ghost from_gives = { λ _ e. e ≡ Memory };

    fn from(_: AllocError) -> Stop {
        Stop::Memory
    }
}

impl<T: Drop> From<AllocFailed<T>> for Stop {
    ghost from_gives = { λ _ e. e ≡ Memory };

    fn from(_: AllocFailed<T>) -> Stop {
        Stop::Memory
    }
}
