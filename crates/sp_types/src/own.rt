//! The type that an expression has by itself.

use sp_words::Ty;

/// The type of an expression by itself: none where it is made of numbers alone; unknown where it hangs on a
/// name that isn't visible or on a type that is none.
#[derive(Clone, Copy, Debug, PartialEq, Eq)]
pub enum Own {
    Nothing,
    Known(Ty),
    Unknown,
}

/// How an expression is checked: at which type, if that is known; whether it must take no word from a FIFO;
/// and whether it must be a number, which `Bit` is not.
#[derive(Clone, Copy, Debug, PartialEq, Eq)]
pub struct Ask {
    pub want: Option<Ty>,
    pub still: bool,
    pub number: bool,
}
