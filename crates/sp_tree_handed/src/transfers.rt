//! The transfers of a core's tree by themselves.
use crate::moves::Direction;

/// A transfer of a core's tree: its direction, the number of its node, its own among the operations, its DRAM and its memory on the chip.
#[derive(Clone, Copy, Debug, PartialEq, Eq)]
pub struct CoreTransfer {
    pub direction: Direction,
    pub node: u32,
    pub number: u32,
    pub dram: u32,
    pub mem: u32,
}
