//! What members are made from.
use sp_netlist::Child;

/// A stage as a part of a circuit, and its first and last lane.
#[derive(Clone, Copy, Debug)]
pub struct StagePart {
    pub child: Child,
    pub first: u32,
    pub last: u32,
}
