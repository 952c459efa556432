//! Tokens.

ghost use Rattle.std.specs.Prelude.{◌≡◌};
ghost use Rattle.sp_reader.specs.Steps as spec;

/// What a token is.
#[derive(Clone, Copy, Debug, PartialEq, Eq)]
pub enum TokenKind {
    Name,
    // Names with a role of their own in some places.
    To,
    Value,
    Enq,
    Deq,
    Gather,
    Scatter,
    /// `_` and digits.
    Width,
    Number,
    /// `_` alone.
    Wild,
    OpenRound,
    CloseRound,
    OpenSquare,
    CloseSquare,
    OpenCurly,
    CloseCurly,
    Comma,
    Dot,
    Semicolon,
    Equal,
    Assign,
    Arrow,
    Colons,
    Plus,
    Minus,
    Star,
    Slash,
    Percent,
    And,
    AndAnd,
    Or,
    OrOr,
    Caret,
    Tilde,
    Bang,
    EqualEqual,
    BangEqual,
    Less,
    LessEqual,
    Greater,
    GreaterEqual,
    ShiftLeft,
    ShiftRight,
    Val,
    Accel,
    ArgIn,
    ArgOut,
    Dram,
    Reg,
    Sram,
    Fifo,
    LineBuffer,
    Int,
    Bit,
    FixPt,
    Signed,
    Unsigned,
    True,
    False,
    Foreach,
    Reduce,
    Fold,
    MemReduce,
    Fsm,
    Sequential,
    Pipe,
    Parallel,
    Stream,
    If,
    Else,
    Mux,
    Min,
    Max,
    By,
    Par,
    Until,
    Load,
    Store,
    /// A character that stands in no rule, or a comment without its end.
    Other,
    /// No token: the end of the text.
    End,
}

/// A token: the bytes of the text from `at` up to `end`. One that a line end inserts has no byte, and stands
/// at the token after it.
#[derive(Clone, Copy, Debug)]
pub struct Token {
    pub kind: TokenKind,
    pub at: u32,
    pub end: u32,
}

/// The words that aren't plain names.
pub const WORDS: [(&[u8], TokenKind); 41] = [
    (b"val", TokenKind::Val),
    (b"Accel", TokenKind::Accel),
    (b"ArgIn", TokenKind::ArgIn),
    (b"ArgOut", TokenKind::ArgOut),
    (b"DRAM", TokenKind::Dram),
    (b"Reg", TokenKind::Reg),
    (b"SRAM", TokenKind::Sram),
    (b"FIFO", TokenKind::Fifo),
    (b"LineBuffer", TokenKind::LineBuffer),
    (b"Int", TokenKind::Int),
    (b"Bit", TokenKind::Bit),
    (b"FixPt", TokenKind::FixPt),
    (b"TRUE", TokenKind::Signed),
    (b"FALSE", TokenKind::Unsigned),
    (b"true", TokenKind::True),
    (b"false", TokenKind::False),
    (b"Foreach", TokenKind::Foreach),
    (b"Reduce", TokenKind::Reduce),
    (b"Fold", TokenKind::Fold),
    (b"MemReduce", TokenKind::MemReduce),
    (b"FSM", TokenKind::Fsm),
    (b"Sequential", TokenKind::Sequential),
    (b"Pipe", TokenKind::Pipe),
    (b"Parallel", TokenKind::Parallel),
    (b"Stream", TokenKind::Stream),
    (b"if", TokenKind::If),
    (b"else", TokenKind::Else),
    (b"mux", TokenKind::Mux),
    (b"min", TokenKind::Min),
    (b"max", TokenKind::Max),
    (b"by", TokenKind::By),
    (b"par", TokenKind::Par),
    (b"until", TokenKind::Until),
    (b"load", TokenKind::Load),
    (b"store", TokenKind::Store),
    (b"to", TokenKind::To),
    (b"value", TokenKind::Value),
    (b"enq", TokenKind::Enq),
    (b"deq", TokenKind::Deq),
    (b"gather", TokenKind::Gather),
    (b"scatter", TokenKind::Scatter),
];

/// The signs, each after those that begin with it.
pub const SIGNS: [(&[u8], TokenKind); 33] = [
    (b":=", TokenKind::Assign),
    (b"::", TokenKind::Colons),
    (b"=>", TokenKind::Arrow),
    (b"==", TokenKind::EqualEqual),
    (b"=", TokenKind::Equal),
    (b"!=", TokenKind::BangEqual),
    (b"!", TokenKind::Bang),
    (b"<<", TokenKind::ShiftLeft),
    (b"<=", TokenKind::LessEqual),
    (b"<", TokenKind::Less),
    (b">>", TokenKind::ShiftRight),
    (b">=", TokenKind::GreaterEqual),
    (b">", TokenKind::Greater),
    (b"&&", TokenKind::AndAnd),
    (b"&", TokenKind::And),
    (b"||", TokenKind::OrOr),
    (b"|", TokenKind::Or),
    (b"(", TokenKind::OpenRound),
    (b")", TokenKind::CloseRound),
    (b"[", TokenKind::OpenSquare),
    (b"]", TokenKind::CloseSquare),
    (b"{", TokenKind::OpenCurly),
    (b"}", TokenKind::CloseCurly),
    (b",", TokenKind::Comma),
    (b".", TokenKind::Dot),
    (b";", TokenKind::Semicolon),
    (b"+", TokenKind::Plus),
    (b"-", TokenKind::Minus),
    (b"*", TokenKind::Star),
    (b"/", TokenKind::Slash),
    (b"%", TokenKind::Percent),
    (b"^", TokenKind::Caret),
    (b"~", TokenKind::Tilde),
];

/// Whether the two are one.
#[tactic(auto, unfolding(crate::specs::Steps::same_kind))]
pub fn same_kind(a: TokenKind, b: TokenKind) -> bool
    ensures { result ≡ spec.same_kind a b }
{
    a == b
}

/// Whether a token of this kind is a name.
pub fn is_name(kind: TokenKind) -> bool
    ensures { result ≡ spec.is_name kind }
{
    match kind {
        TokenKind::Name
        | TokenKind::To
        | TokenKind::Value
        | TokenKind::Enq
        | TokenKind::Deq
        | TokenKind::Gather
        | TokenKind::Scatter => true,
        _ => false,
    }
}

/// The bytes of the token.
#[tactic(auto, unfolding(crate::specs::Steps::spelling_of))]
pub fn spelling(source: &[u8], token: Token) -> &[u8]
    ensures { result.now ≡ spec.spelling_of source.now token }
{
    source
        .get(token.at as usize..token.end as usize)
        .unwrap_or(&[])
}
