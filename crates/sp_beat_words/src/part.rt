//! The nets of slots that are driven here.
use sp_netlist::{NetId, Wire};

/// The words of the group that a slot has.
#[derive(Debug, Drop)]
pub struct Row {
    pub wires: Vec<Wire>,
}

/// The number of the copy of the group that a slot has, in turn of so many. `first` is 1 where the slot gets a group.
#[derive(Clone, Copy, Debug, PartialEq, Eq)]
pub struct Turn {
    pub first: NetId,
    pub copies: u32,
    pub net: NetId,
}
