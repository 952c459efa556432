//! Nets of owners.
use sp_netlist::NetId;

/// How a loop with stages turns: the net by which it is started, and for each of its slots the net that is 1 where the slot gets a
/// group. `owned` are the memories that the loop owns.
#[derive(Debug, Drop)]
pub struct LoopTurns {
    pub start: NetId,
    pub owned: Vec<u32>,
    pub firsts: Vec<NetId>,
}

/// A loop makes its memory fresh in each cycle in which `first` is 1, in the copy whose number `copy` has then: copy 0 where there is no
/// such net.
#[derive(Clone, Copy, Debug, PartialEq, Eq)]
pub struct Renewal {
    pub mem: u32,
    pub first: NetId,
    pub copy: Option<NetId>,
}

/// An FSM keeps its state in each cycle in which `done` is 1: the word that `word` has then, in the copy whose number `copy` has, or copy
/// 0.
#[derive(Clone, Copy, Debug, PartialEq, Eq)]
pub struct Keeping {
    pub mem: u32,
    pub done: NetId,
    pub word: NetId,
    pub copy: Option<NetId>,
}

/// What a tree hands on of its owners, in its order: how its loops turn, and where its FSMs keep their states, with no nets of copies.
#[derive(Debug, Drop)]
pub struct TreeOwners {
    pub turns: Vec<LoopTurns>,
    pub kept: Vec<Keeping>,
}

/// What the owners in a tree do to their memories, in the order of the tree.
#[derive(Debug, Drop)]
pub struct OwnerNets {
    pub renewed: Vec<Renewal>,
    pub kept: Vec<Keeping>,
}
