//! What memories are made from.
use sp_netlist::NetId;
use sp_words::Ty;

/// Makes a copy of a memory fresh in each cycle in which the enable is 1. Which copy it is stands on a net of 32 bits; where
/// there is none it is copy 0.
#[derive(Clone, Copy, Debug, PartialEq, Eq)]
pub struct Fresh {
    pub enable: NetId,
    pub copy: Option<NetId>,
}

/// An access. It is enabled in each cycle in which the enable is 1, at the indices and the copy that stand on nets of 32 bits
/// in that cycle; without a net for the copy it is copy 0. The word of a write is given, that of a read is a net that the
/// memory drives. Reads of one number `tap` share a tap.
#[derive(Debug, Drop)]
pub struct Touch {
    pub enable: NetId,
    pub index: Vec<NetId>,
    pub copy: Option<NetId>,
    pub duplicate: u32,
    pub tap: u32,
    pub word: NetId,
}

/// A register in copies: the word that it begins with and that a fresh copy has, 0 where none is given; what makes copies
/// fresh, and its writes and reads.
#[derive(Debug, Drop)]
pub struct Register {
    pub start: NetId,
    pub ty: Ty,
    pub copies: u32,
    pub first: Option<u64>,
    pub fresh: Vec<Fresh>,
    pub writes: Vec<Touch>,
    pub reads: Vec<Touch>,
}
