//! What stands on a port.
use sp_access::Access;
use sp_netlist::NetId;

/// What a port to write is asked for: in each cycle in which the access is on, the word goes to its place.
#[derive(Clone, Copy, Debug, PartialEq, Eq)]
pub struct WritePort {
    pub access: Access,
    pub word: NetId,
}
