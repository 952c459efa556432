/// What a memory is.
#[derive(Clone, Copy, Debug, PartialEq, Eq, Hash)]
pub enum Kind {
    Reg,
    Sram,
    Fifo,
    LineBuf,
    Dram,
    ArgIn,
    ArgOut,
}

/// How the parts of a controller may lie in time: overlapping, one after another, side by side, or side by
/// side and waiting for each other at the FIFOs that join them. Only `Stream` can change how a program ends:
/// a FIFO of such a block holds more words while the block runs.
#[derive(Clone, Copy, Debug, PartialEq, Eq, Hash)]
pub enum Style {
    Pipe,
    Sequential,
    Parallel,
    Stream,
}

/// An operator on one word.
#[derive(Clone, Copy, Debug, PartialEq, Eq, Hash)]
pub enum UnOp {
    Neg,
    Not,
}

/// An operator on two words.
#[derive(Clone, Copy, Debug, PartialEq, Eq, Hash)]
pub enum BinOp {
    Add,
    Sub,
    Mul,
    Div,
    Rem,
    And,
    Or,
    Xor,
    Lt,
    Le,
    Gt,
    Ge,
    Eq,
    Ne,
    Min,
    Max,
}
