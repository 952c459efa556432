//! The nets by which the parts of a circuit meet.
use crate::cell::NetId;

/// The two nets by which a part is run by the part round it: its start, which the other drives, and its
/// done.
#[derive(Clone, Copy, Debug, PartialEq, Eq, Hash)]
pub struct Child {
    pub start: NetId,
    pub done: NetId,
}

/// A net and its width in bits.
#[derive(Clone, Copy, Debug, PartialEq, Eq, Hash)]
pub struct Wire {
    pub net: NetId,
    pub width: u8,
}

/// What a part shows to the parts round it: its start, its done, and the other nets that its kind names.
#[derive(Debug, Drop)]
pub struct Ends {
    pub start: NetId,
    pub done: NetId,
    pub nets: Vec<NetId>,
}
