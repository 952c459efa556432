//! What a run has between two steps.

use crate::memory::Memory;
use sp_tree::FaultKind;

/// Why a run doesn't go on: at a fault, or for want of turns.
#[derive(Clone, Copy, Debug, PartialEq, Eq)]
pub(crate) enum Stop {
    Fault(FaultKind, u32),
    Turns,
}

/// The turns that are left, the words of values and counters, and the memories, all by number.
#[derive(Drop)]
pub(crate) struct State {
    pub(crate) left: u64,
    pub(crate) values: Vec<u64>,
    pub(crate) counts: Vec<u64>,
    pub(crate) memories: Vec<Memory>,
}
