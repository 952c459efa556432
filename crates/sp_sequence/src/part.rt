//! What sequences are made from.
use sp_netlist::{Child, NetId};

/// A part that is run in its place. Where `wanted` isn't 1 in the cycle before, it is passed over, in two cycles.
#[derive(Clone, Copy, Debug, PartialEq, Eq)]
pub struct Member {
    pub child: Child,
    pub wanted: Option<NetId>,
}

/// Members that are run one after the other.
#[derive(Debug, Drop)]
pub struct Chain {
    pub members: Vec<Member>,
}

/// Chains that are run at once.
#[derive(Debug, Drop)]
pub struct Slot {
    pub chains: Vec<Chain>,
}

/// Slots that are run one after the other, and their start.
#[derive(Debug, Drop)]
pub struct Sequence {
    pub start: NetId,
    pub slots: Vec<Slot>,
}
