//! The numbers of copies of a slot.
use sp_netlist::NetId;

/// For each memory that a loop owns, in order, the net of the number of its copy for one slot of the loop: none where it has one
/// copy.
#[derive(Debug, Drop)]
pub struct SlotNumbers {
    pub nets: Vec<Option<NetId>>,
}
