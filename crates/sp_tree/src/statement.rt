use crate::expression::Expr;
use crate::number::{CtrId, ValId};
use sp_words::{ArgOut, Dram, Fifo, LineBuf, MemId, Reg, Sram, Style, WritePort};

/// A statement. `at` is the byte of the program's text at which it begins.
#[cycle(statement)]
#[derive(Debug, Drop)]
pub struct Stmt {
    pub at: u32,
    pub kind: StmtKind,
}

/// What a statement is.
#[cycle(statement)]
#[derive(Debug, Drop)]
pub enum StmtKind {
    /// The memory of this number begins.
    Declare(u32),
    Let(ValId, Expr),
    SetReg(WritePort<Reg>, Expr),
    SetOut(WritePort<ArgOut>, Expr),
    /// An SRAM at one index for each dimension, and the word.
    SetSram(WritePort<Sram>, Vec<Expr>, Expr),
    Enq(WritePort<Fifo>, Expr),
    /// Words of a slice of a DRAM into an SRAM.
    LoadSram(MemId<Sram>, MemId<Dram>, Vec<Span>),
    /// A row of a DRAM into a line buffer.
    LoadLine(MemId<LineBuf>, MemId<Dram>, Vec<Span>),
    /// Words of an SRAM into a slice of a DRAM.
    Store(MemId<Dram>, Vec<Span>, MemId<Sram>),
    /// The words of a DRAM at the places that the second SRAM holds, as many as the expression says, into
    /// the first SRAM.
    Gather(MemId<Sram>, MemId<Dram>, MemId<Sram>, Expr),
    /// The words of the second SRAM, as many as the expression says, into a DRAM at the places that the
    /// first SRAM holds.
    Scatter(MemId<Dram>, MemId<Sram>, Expr, MemId<Sram>),
    Control(Box<Ctl>),
}

/// What a slice takes of one dimension of a DRAM: one index, or those from the first up to the second,
/// which is not taken; of these, as many as the number says may be moved at once.
#[derive(Debug, Drop)]
pub enum Span {
    One(Expr),
    Range(Expr, Expr, u32),
}

/// A counter: `from`, `from + by`, .. below `until`, of which `par` may be taken at once.
#[derive(Debug, Drop)]
pub struct Counter {
    pub id: CtrId,
    pub from: Expr,
    pub until: Expr,
    pub by: u32,
    pub par: u32,
}

/// A controller. Of several counters the last one runs fastest.
#[cycle(statement)]
#[derive(Debug, Drop)]
pub enum Ctl {
    Block {
        style: Style,
        body: Vec<Stmt>,
    },
    Foreach {
        style: Style,
        counters: Vec<Counter>,
        body: Vec<Stmt>,
    },
    /// The words that `value` has at the end of each iteration, combined in `acc`; with `fold`, after the
    /// word that `acc` holds before.
    Reduce {
        style: Style,
        fold: bool,
        acc: MemId<Reg>,
        counters: Vec<Counter>,
        body: Vec<Stmt>,
        value: Expr,
        comb: Comb,
    },
    /// The same for each element of `part`, in the element of `acc` at the same place.
    MemReduce {
        style: Style,
        acc: MemId<Sram>,
        counters: Vec<Counter>,
        body: Vec<Stmt>,
        part: MemId<Sram>,
        comb: Comb,
    },
    /// From the state `start`, as long as `test` is 1, the body and then the state `next`. `tested`,
    /// `state` and `last` stand for the state in the test, in the body and in `next`.
    Fsm {
        start: Expr,
        tested: ValId,
        test: Expr,
        state: ValId,
        body: Vec<Stmt>,
        last: ValId,
        next: Expr,
    },
    Branch {
        test: Expr,
        yes: Vec<Stmt>,
        no: Vec<Stmt>,
    },
}

/// The operator that combines two words into one.
#[derive(Clone, Copy, Debug, PartialEq, Eq, Hash)]
pub enum Comb {
    Add,
    Mul,
    And,
    Or,
    Xor,
    Min,
    Max,
}

/// Why a program stops before its end.
#[derive(Clone, Copy, Debug, PartialEq, Eq, Hash)]
pub enum FaultKind {
    /// An index outside of an SRAM or a line buffer, or a range longer than a dimension of an SRAM.
    Bounds,
    /// A read of an element or a register that isn't written yet.
    Unwritten,
    /// An `enq` on a FIFO that holds its depth, or its room where a proper `Stream` block declares it; the end
    /// of such a block of which a FIFO holds more words than its depth.
    FifoFull,
    /// A `deq` on an empty FIFO.
    FifoEmpty,
    /// A slice, or a place of a gather or scatter, outside of its DRAM.
    DramBounds,
    /// A row longer than its line buffer.
    RowLength,
}
