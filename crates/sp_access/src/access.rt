//! Accesses to a bank.
use sp_netlist::NetId;

/// An access to a bank: it asks for the place, a net of 32 bits, in each cycle in which `on` is 1.
#[derive(Clone, Copy, Debug, PartialEq, Eq)]
pub struct Access {
    pub on: NetId,
    pub place: NetId,
}
