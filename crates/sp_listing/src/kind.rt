//! The kinds of a listing's lines.
ghost use Rattle.std.specs.Prelude.{◌≢◌, ◌≡◌, MatchOption};
ghost use Rattle.sp_listing.specs.declared.kind.Kind.{Kind};
ghost use Rattle.sp_listing.specs.Readers.{kind_text};

/// What the first word of a line says.
#[derive(Clone, Copy, Debug, PartialEq, Eq)]
pub enum Kind {
    In,
    Out,
    Done,
    Const,
    Op,
    Not,
    Shift,
    Cast,
    Mux,
    Reg,
    Bank,
    Read,
    Write,
    Dram,
    Load,
    Store,
}

/// The kind of that word.
pub fn kind_of(word: &str) -> Option<Kind>
    ensures { MatchOption result ((kind : Kind) → word.now ≢ kind_text kind) (λ kind. word.now ≡ kind_text kind) }
{
    match word {
        "in" => Some(Kind::In),
        "out" => Some(Kind::Out),
        "done" => Some(Kind::Done),
        "const" => Some(Kind::Const),
        "op" => Some(Kind::Op),
        "not" => Some(Kind::Not),
        "shift" => Some(Kind::Shift),
        "cast" => Some(Kind::Cast),
        "mux" => Some(Kind::Mux),
        "reg" => Some(Kind::Reg),
        "bank" => Some(Kind::Bank),
        "read" => Some(Kind::Read),
        "write" => Some(Kind::Write),
        "dram" => Some(Kind::Dram),
        "load" => Some(Kind::Load),
        "store" => Some(Kind::Store),
        _ => None,
    }
}
