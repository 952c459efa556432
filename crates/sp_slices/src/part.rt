//! What a slice is made from, and what walks through it.
use sp_counters::{Counted, Counters};
use sp_netlist::NetId;

/// What a slice takes of one dimension: one index, or those from the first up to the second. The nets have 32 bits.
#[derive(Clone, Copy, Debug, PartialEq, Eq)]
pub enum Move {
    One(NetId),
    Range(NetId, NetId),
}

/// The nets of one dimension: its first index and the one past its last, as they were at the start; whether the word that stands
/// has the last index; and how far into the dimension it is.
#[derive(Clone, Copy, Debug, PartialEq, Eq)]
pub struct Axis {
    pub from: NetId,
    pub until: NetId,
    pub ended: NetId,
    pub offset: NetId,
}

/// What walks through a slice: a counter for each dimension, their nets, those of the dimensions, and the net that is 1 where
/// the word that stands is the last one.
#[derive(Debug, Drop)]
pub struct Walk {
    pub counters: Counters,
    pub counted: Counted,
    pub axes: Vec<Axis>,
    pub last: NetId,
}
