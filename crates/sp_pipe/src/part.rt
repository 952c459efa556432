//! What an inner body's circuit is made from.
use sp_netlist::NetId;
use sp_words::{BinOp, Ty, UnOp};

/// What an operation does. An access gives an enable and its operands to a memory, which answers a read.
#[derive(Clone, Copy, Debug, PartialEq, Eq)]
pub enum Act {
    /// The word that this net has where the group is issued: a counter, or a lane's mask.
    Given(NetId),
    Word(u64),
    One(UnOp),
    Two(BinOp),
    /// To the left where the flag is set, by so many places.
    Shift(bool, u8),
    /// The second word where the first is 1, else the third.
    Mux,
    /// The same number at another type.
    Cast(Ty),
    /// An access whose word comes on this net so many cycles later.
    Read(NetId, u32),
    /// A word is taken from a queue: it comes on this net so many cycles later.
    Deq(NetId, u32),
    /// Indices, and last the word.
    Write,
    Enq,
    Reset,
}

/// An operation of a body, the places of the operations that it takes words from, and that of its mask. It is done so many
/// cycles after the issue of its group.
#[derive(Debug, Drop)]
pub struct PipeOp {
    pub act: Act,
    pub ty: Ty,
    pub args: Vec<u32>,
    pub mask: Option<u32>,
    pub time: u32,
}

/// The nets of the counters of a body: one that is 1 while a group stands, and the one that the body drives, which is 1 where
/// the counters are to go on.
#[derive(Clone, Copy, Debug, PartialEq, Eq)]
pub struct Groups {
    pub more: NetId,
    pub step: NetId,
}

/// An inner body: its start, the nets of its counters where it has some, its operations, the interval of its groups, and how
/// many cycles after the issue of a group the last operation is over.
#[derive(Debug, Drop)]
pub struct Part {
    pub start: NetId,
    pub groups: Option<Groups>,
    pub ops: Vec<PipeOp>,
    pub ii: u32,
    pub latency: u32,
}
