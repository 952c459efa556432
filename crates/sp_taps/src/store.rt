//! The nets of a bank.
use sp_netlist::NetId;

/// The nets of a bank's two ports. In a cycle in which `write` is 1 the word goes to the place `write_at`; where `read` is 1
/// `found` has the word of the place `read_at` in the next cycle. All but `found` are to be driven.
#[derive(Clone, Copy, Debug, PartialEq, Eq)]
pub struct Store {
    pub write: NetId,
    pub write_at: NetId,
    pub word: NetId,
    pub read: NetId,
    pub read_at: NetId,
    pub found: NetId,
}
