//! What a loop in beats is made from.
use sp_netlist::NetId;
use sp_sequence::Slot;

/// The start of a loop, a net that tells whether one more group comes, the net by which groups move on, which is driven, and the
/// slots.
#[derive(Debug, Drop)]
pub struct Beats {
    pub start: NetId,
    pub more: NetId,
    pub step: NetId,
    pub slots: Vec<Slot>,
}
