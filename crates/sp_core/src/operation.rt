use sp_words::{BinOp, Ty, UnOp};

/// An operation, or a word that stands without one. Operations form lists, and stand for one word each: `args`, and
/// `mask` where there is one, are places of earlier ones of the same list. Under a mask of 0 nothing is done, and the
/// word is 0.
///
/// `ty` is the type at which it is done: of its operands, of the memory's words, or of the word that it gives.
/// Comparisons give a `Bit` and a cast its target, all others a word of `ty`.
#[derive(Debug, Drop)]
pub struct Op {
    pub kind: OpKind,
    pub ty: Ty,
    pub args: Vec<u32>,
    pub mem: Option<u32>,
    pub mask: Option<u32>,
}

/// What an operation does. Reads and writes take an index for each dimension of their memory; a write, and an `enq`,
/// take their word last.
#[derive(Clone, Copy, Debug, PartialEq, Eq)]
pub enum OpKind {
    /// This word. No operation.
    Word(u64),
    /// A counter in a lane of its controller: in lane l the last counter stands for its value in the group plus l times
    /// its step, any other for its value. No operation.
    Count(u32, u32),
    /// Whether some lane, from the first one up to the last one, isn't masked in the controller of this counter. No
    /// operation.
    Live(u32, u32, u32),
    Read,
    Write,
    Enq,
    Deq,
    /// A FIFO is emptied, or a register takes its start.
    Reset,
    One(UnOp),
    Two(BinOp),
    /// To the left where the flag is set.
    Shift(bool, u8),
    /// The second word where the first is 1, else the third.
    Mux,
    /// The same number at another type.
    Cast(Ty),
}
