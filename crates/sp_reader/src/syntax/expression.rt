use sp_words::BinOp;

/// A name, with the place at which it stands.
#[derive(Debug, Drop)]
pub struct Ident {
    pub at: u32,
    pub text: String,
}

/// A number: its sign, its whole part, and the digits after its point, each from 0 to 9.
#[derive(Debug, Drop)]
pub struct Digits {
    pub at: u32,
    pub negative: bool,
    pub whole: u128,
    pub digits: Vec<u8>,
}

/// A type as it is written. The bits of a fixed-point type before and after the point are up to 64; 65 stands
/// for all that are more.
#[derive(Clone, Copy, Debug, PartialEq, Eq)]
pub enum SynTy {
    Int {
        at: u32,
    },
    Bit {
        at: u32,
    },
    FixPt {
        at: u32,
        signed: bool,
        whole: u8,
        frac: u8,
    },
}

/// An initial value, with the type to which it is cast.
#[derive(Debug, Drop)]
pub enum SynLit {
    Number(Digits, Option<SynTy>),
    Truth { at: u32, value: bool },
}

/// An operator before an expression.
#[derive(Clone, Copy, Debug, PartialEq, Eq)]
pub enum SynUn {
    Minus,
    Bang,
    Tilde,
}

/// An expression, with the place at which it begins. A binary operation begins where its left operand does.
#[cycle(expression)]
#[derive(Debug, Drop)]
pub struct SynExpr {
    pub at: u32,
    pub kind: SynExprKind,
}

/// What an expression is. Parentheses leave no trace.
#[cycle(expression)]
#[derive(Debug, Drop)]
pub enum SynExprKind {
    Number(Digits),
    Truth(bool),
    /// With `.value` where the flag is set.
    Name(Ident, bool),
    Deq(Ident),
    At(Ident, Vec<SynExpr>),
    Mux(Box<SynExpr>, Box<SynExpr>, Box<SynExpr>),
    Min(Box<SynExpr>, Box<SynExpr>),
    Max(Box<SynExpr>, Box<SynExpr>),
    One(SynUn, Box<SynExpr>),
    Two(BinOp, Box<SynExpr>, Box<SynExpr>),
    /// To the left where the flag is set, by 0 to 63 bits.
    Shift(bool, Box<SynExpr>, u8),
    Cast(Box<SynExpr>, SynTy),
}
