//! What counters are made from, and what they give.
use sp_netlist::NetId;

/// A counter: the nets of its bounds, its step, and how many iterations of it one group takes.
#[derive(Clone, Copy, Debug, PartialEq, Eq)]
pub struct Count {
    pub from: NetId,
    pub until: NetId,
    pub by: u32,
    pub par: u32,
}

/// The counters of a loop, the last one fastest: its start, and the net that is 1 where they go on.
#[derive(Debug, Drop)]
pub struct Counters {
    pub start: NetId,
    pub step: NetId,
    pub counters: Vec<Count>,
}

/// The nets of a counter: its value, and its bounds as they were at the start.
#[derive(Clone, Copy, Debug, PartialEq, Eq)]
pub struct Counter {
    pub value: NetId,
    pub from: NetId,
    pub until: NetId,
}

/// The nets of counters: for each lane of the last one a net that is 1 where it isn't masked, and one that is 1 while a
/// group stands.
#[derive(Debug, Drop)]
pub struct Counted {
    pub counters: Vec<Counter>,
    pub masks: Vec<NetId>,
    pub more: NetId,
}
