use crate::number::{CtrId, ValId};
use sp_words::{ArgIn, BinOp, Fifo, LineBuf, ReadPort, Reg, Sram, Ty, UnOp};

/// An expression with its type. `at` is the byte of the program's text at which it begins.
#[cycle(expression)]
#[derive(Debug, Drop)]
pub struct Expr {
    pub at: u32,
    pub ty: Ty,
    pub kind: ExprKind,
}

/// What an expression is. Operands stand in the order in which they are evaluated.
#[cycle(expression)]
#[derive(Debug, Drop)]
pub enum ExprKind {
    /// A word of the expression's type.
    Lit(u64),
    Count(CtrId),
    Val(ValId),
    GetReg(ReadPort<Reg>),
    GetArg(ReadPort<ArgIn>),
    /// An SRAM at one index for each dimension.
    GetSram(ReadPort<Sram>, Vec<Expr>),
    /// A line buffer at a row and a column.
    GetLine(ReadPort<LineBuf>, Box<Expr>, Box<Expr>),
    Deq(ReadPort<Fifo>),
    One(UnOp, Box<Expr>),
    Two(BinOp, Box<Expr>, Box<Expr>),
    /// To the left where the flag is set, by so many bits.
    Shift(bool, Box<Expr>, u8),
    /// The second operand where the first, a `Bit`, is 1, else the third.
    Mux(Box<Expr>, Box<Expr>, Box<Expr>),
    /// The operand's number at the expression's type.
    Cast(Box<Expr>),
}
