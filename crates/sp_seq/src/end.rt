//! How a run of a program ends.

use sp_tree::FaultKind;

/// How a run of a program ends.
#[derive(Clone, Copy, Debug, PartialEq, Eq)]
pub enum SeqEnd {
    /// It ended, after so many turns.
    Ended { turns: u64 },
    /// Its first fault, at this byte of the program's text.
    Fault { kind: FaultKind, at: u32 },
    /// Neither within the turns that it was given.
    TurnsSpent,
}

/// A run: the turns that it was given, and how it ended.
#[derive(Clone, Copy, Debug, PartialEq, Eq)]
pub(crate) struct Run {
    pub(crate) given: u64,
    pub(crate) end: SeqEnd,
}
