//! Accesses whose place is known.
use sp_netlist::NetId;

/// An access to a memory in banks, by nets: whether it is enabled, and of 32 bits each the number of its copy, its bank and the
/// place there. The word is that of a write, or the net that a read is to drive.
#[derive(Clone, Copy, Debug, PartialEq, Eq)]
pub struct Request {
    pub enable: NetId,
    pub copy: NetId,
    pub bank: NetId,
    pub place: NetId,
    pub word: NetId,
    pub duplicate: u32,
}
