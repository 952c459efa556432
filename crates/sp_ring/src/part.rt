//! What a queue in one bank is made from.
use sp_netlist::NetId;

/// What is asked of a queue, by nets of one bit: in each cycle in which `put` is 1 the word goes to its end, and where `take` is
/// 1 its first word is taken. Where `fresh` is 1 it is made empty, whatever else is asked.
#[derive(Clone, Copy, Debug, PartialEq, Eq)]
pub struct Asked {
    pub put: NetId,
    pub word: NetId,
    pub take: NetId,
    pub fresh: NetId,
}

/// The places of the first word and behind the last one, on registers of 32 bits.
#[derive(Clone, Copy, Debug, PartialEq, Eq)]
pub struct Ring {
    pub head: NetId,
    pub tail: NetId,
}
