//! The nets of units.
use sp_netlist::NetId;

/// The nets of a load unit. `request`, `last` and `address` are to be driven. In a cycle in which `ready` is 1 the word at the
/// address moves; it stands on `word` from the next cycle on.
#[derive(Clone, Copy, Debug, PartialEq, Eq)]
pub struct LoadPort {
    pub request: NetId,
    pub last: NetId,
    pub address: NetId,
    pub ready: NetId,
    pub word: NetId,
}

/// The nets of a store unit. All but `ready` are to be driven. In a cycle in which `ready` is 1 the word moves to the address.
#[derive(Clone, Copy, Debug, PartialEq, Eq)]
pub struct StorePort {
    pub request: NetId,
    pub last: NetId,
    pub address: NetId,
    pub word: NetId,
    pub ready: NetId,
}
