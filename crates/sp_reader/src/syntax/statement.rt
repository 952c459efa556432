use crate::syntax::expression::{Ident, SynExpr, SynLit, SynTy};
use sp_words::{BinOp, Style};

/// How many lanes; `at` is that of the word `par`.
#[derive(Clone, Copy, Debug, PartialEq, Eq)]
pub struct SynPar {
    pub at: u32,
    pub lanes: u32,
}

/// A counter. A step that isn't written is 1.
#[derive(Debug, Drop)]
pub struct SynCounter {
    pub from: Option<SynExpr>,
    pub until: SynExpr,
    pub by: u32,
    pub par: Option<SynPar>,
}

/// What a transfer takes of one dimension: one index, or a range.
#[derive(Debug, Drop)]
pub enum SynSpan {
    One(SynExpr),
    Range(SynExpr, SynExpr, Option<SynPar>),
}

/// A combiner; `at` is that of its bracket. `{_ + _}` has no names.
#[derive(Debug, Drop)]
pub struct SynComb {
    pub at: u32,
    pub params: Option<(Ident, Ident)>,
    pub op: BinOp,
    pub args: Option<(Ident, Ident)>,
}

/// What loops have in common. The style is `None` where none is written.
#[cycle(statement)]
#[derive(Debug, Drop)]
pub struct SynLoop {
    pub style: Option<Style>,
    pub counters: Vec<SynCounter>,
    pub binds: Vec<Ident>,
    pub body: Vec<SynStmt>,
}

/// A statement, with the place of its first token.
#[cycle(statement)]
#[derive(Debug, Drop)]
pub struct SynStmt {
    pub at: u32,
    pub kind: SynStmtKind,
}

/// What a statement is; its parts stand in the order of the text.
#[cycle(statement)]
#[derive(Debug, Drop)]
pub enum SynStmtKind {
    Reg(Ident, SynTy, Option<SynLit>),
    Sram(Ident, SynTy, Vec<u32>),
    Fifo(Ident, SynTy, u32),
    LineBuffer(Ident, SynTy, u32, u32),
    Let(Ident, SynExpr),
    Set(Ident, SynExpr),
    SetAt(Ident, Vec<SynExpr>, SynExpr),
    Enq(Ident, SynExpr),
    Load(Ident, Ident, Vec<SynSpan>),
    Store(Ident, Vec<SynSpan>, Ident),
    /// The memory on the chip, the DRAM, the memory of the places, and how many.
    Gather(Ident, Ident, Ident, SynExpr),
    /// The DRAM, the memory of the places, how many, and the memory on the chip.
    Scatter(Ident, Ident, SynExpr, Ident),
    Block(Style, Vec<SynStmt>),
    Foreach(SynLoop),
    Reduce(SynLoop, Ident, SynExpr, SynComb),
    Fold(SynLoop, Ident, SynExpr, SynComb),
    MemReduce(SynLoop, Ident, SynExpr, SynComb),
    /// The start; the state in the test, and the test; the state in the body, and the body; the state in the
    /// next one, and the next one.
    Fsm(SynExpr, Ident, SynExpr, Ident, Vec<SynStmt>, Ident, SynExpr),
    /// A second block that isn't written is empty.
    If(SynExpr, Vec<SynStmt>, Vec<SynStmt>),
}
