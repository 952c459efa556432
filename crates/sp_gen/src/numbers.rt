//! The numbers of a generated program.
use std::fmt;

/// What the words of a tile, and then those of all tiles, are combined by.
#[derive(Clone, Copy, Debug, PartialEq, Eq)]
pub enum Combiner {
    Sum,
    /// Each bit is 1 where one of the two is.
    Either,
    Greatest,
}

impl fmt::Display for Combiner {
    ghost use Rattle.std.specs.Prelude.{Some};
    ghost use Rattle.sp_gen.specs.Text.{combiner_text};

    ghost output = { λ combiner. Some (combiner_text combiner) };

    fn fmt<W: fmt::Write>(&self, f: &mut fmt::Formatter<W>) -> fmt::Result {
        match self {
            Combiner::Sum => write!(f, "{{_ + _}}"),
            Combiner::Either => write!(f, "{{_ ^ _}}"),
            Combiner::Greatest => write!(f, "{{(a, b) => max(a, b)}}"),
        }
    }
}

/// The numbers that stand in the text of a generated program, and its combiner.
#[derive(Clone, Copy, Debug)]
pub struct Numbers {
    pub tiles: u64,
    /// The words of a tile.
    pub tile: u64,
    pub lanes: u64,
    pub offset: u64,
    pub combiner: Combiner,
}
