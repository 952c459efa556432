//! How a memory lies in banks.
use sp_netlist::NetId;

/// A memory's dimensions, and how it is divided into banks: how many, how many places in a row stand in one bank, a weight for
/// each dimension, and the dimension along which a bank is filled. A memory in one bank has 1, 1, the weights 0 and hinge 0.
#[derive(Debug, Drop)]
pub struct Layout {
    pub dims: Vec<u32>,
    pub banks: u32,
    pub block: u32,
    pub alpha: Vec<u32>,
    pub hinge: u32,
}

/// Nets of 32 bits with the bank of an element and its place there.
#[derive(Clone, Copy, Debug, PartialEq, Eq)]
pub struct Spot {
    pub bank: NetId,
    pub place: NetId,
}
