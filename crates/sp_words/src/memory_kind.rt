//! The kinds of memory as types, so that a port of a kind that cannot be read or written has no type.

ghost use Rattle.std.specs.Prelude.{◌≡◌, ℕ, List, [], ◌∷◌, replicate, Option, None, IsTrue, refl};
ghost use Rattle.sp_words.specs.declared.kind.Kind.{Kind};
ghost use Rattle.sp_words.specs.declared.kind.Kind.TheVariants as kinds;
ghost use Rattle.sp_words.specs.Interface.{word_count};
ghost use Rattle.sp_words.specs.Memory.{Contents, cells, queue, rows, words, fresh_rows, fresh_of, least_rank, greatest_rank, is_readable, is_writable};

use crate::kind::Kind;

/// A kind of memory. The ranks are the least and the greatest number of indices of an access.
pub trait MemKind {
    const KIND: Kind;

    const MIN_RANK: u8;

    const MAX_RANK: u8;

    ghost KIND: { Kind };

    ghost MIN_RANK: { ℕ };

    ghost MAX_RANK: { ℕ };

    // what a fresh memory holds, by its dimensions, the start of a register and the words of the input
    ghost fresh: { List ℕ → Option ℕ → List ℕ → Contents };

    ghost least: { MIN_RANK ≡ least_rank KIND };

    ghost greatest: { MAX_RANK ≡ greatest_rank KIND };

    ghost fresh_is: { (dims : List ℕ) (start : Option ℕ) (given : List ℕ) → fresh dims start given ≡ fresh_of KIND dims start given };
}

/// A kind that has read ports.
pub trait Readable: MemKind {
    ghost readable: { IsTrue (is_readable Self.KIND) };
}

/// A kind that has write ports.
pub trait Writable: MemKind {
    ghost writable: { IsTrue (is_writable Self.KIND) };
}

/// A register: one word, which may have a start.
#[derive(Clone, Copy, Debug, PartialEq, Eq, Hash)]
pub struct Reg;

/// A memory on the chip, of one to three dimensions.
#[derive(Clone, Copy, Debug, PartialEq, Eq, Hash)]
pub struct Sram;

/// A queue of words.
#[derive(Clone, Copy, Debug, PartialEq, Eq, Hash)]
pub struct Fifo;

/// Rows of words, of which loads bring new ones.
#[derive(Clone, Copy, Debug, PartialEq, Eq, Hash)]
pub struct LineBuf;

/// A memory outside the chip, which is read and written by transfers alone.
#[derive(Clone, Copy, Debug, PartialEq, Eq, Hash)]
pub struct Dram;

/// A word that the program is given.
#[derive(Clone, Copy, Debug, PartialEq, Eq, Hash)]
pub struct ArgIn;

/// A word that the program leaves.
#[derive(Clone, Copy, Debug, PartialEq, Eq, Hash)]
pub struct ArgOut;

impl MemKind for Reg {
    const KIND: Kind = Kind::Reg;

    const MIN_RANK: u8 = 0;

    const MAX_RANK: u8 = 0;

    ghost KIND = { kinds.Reg };

    ghost MIN_RANK = { 0 };

    ghost MAX_RANK = { 0 };

    ghost fresh = { λ dims start given. cells (start ∷ []) };

    ghost least = { refl };

    ghost greatest = { refl };

    ghost fresh_is = { λ dims start given. refl };
}

impl MemKind for Sram {
    const KIND: Kind = Kind::Sram;

    const MIN_RANK: u8 = 1;

    const MAX_RANK: u8 = 3;

    ghost KIND = { kinds.Sram };

    ghost MIN_RANK = { 1 };

    ghost MAX_RANK = { 3 };

    ghost fresh = { λ dims start given. cells (replicate (word_count dims) None) };

    ghost least = { refl };

    ghost greatest = { refl };

    ghost fresh_is = { λ dims start given. refl };
}

impl MemKind for Fifo {
    const KIND: Kind = Kind::Fifo;

    const MIN_RANK: u8 = 0;

    const MAX_RANK: u8 = 0;

    ghost KIND = { kinds.Fifo };

    ghost MIN_RANK = { 0 };

    ghost MAX_RANK = { 0 };

    ghost fresh = { λ dims start given. queue [] };

    ghost least = { refl };

    ghost greatest = { refl };

    ghost fresh_is = { λ dims start given. refl };
}

impl MemKind for LineBuf {
    const KIND: Kind = Kind::LineBuf;

    const MIN_RANK: u8 = 2;

    const MAX_RANK: u8 = 2;

    ghost KIND = { kinds.LineBuf };

    ghost MIN_RANK = { 2 };

    ghost MAX_RANK = { 2 };

    ghost fresh = { λ dims start given. rows (fresh_rows dims) };

    ghost least = { refl };

    ghost greatest = { refl };

    ghost fresh_is = { λ dims start given. refl };
}

impl MemKind for Dram {
    const KIND: Kind = Kind::Dram;

    const MIN_RANK: u8 = 1;

    const MAX_RANK: u8 = 3;

    ghost KIND = { kinds.Dram };

    ghost MIN_RANK = { 1 };

    ghost MAX_RANK = { 3 };

    ghost fresh = { λ dims start given. words given };

    ghost least = { refl };

    ghost greatest = { refl };

    ghost fresh_is = { λ dims start given. refl };
}

impl MemKind for ArgIn {
    const KIND: Kind = Kind::ArgIn;

    const MIN_RANK: u8 = 0;

    const MAX_RANK: u8 = 0;

    ghost KIND = { kinds.ArgIn };

    ghost MIN_RANK = { 0 };

    ghost MAX_RANK = { 0 };

    ghost fresh = { λ dims start given. words given };

    ghost least = { refl };

    ghost greatest = { refl };

    ghost fresh_is = { λ dims start given. refl };
}

impl MemKind for ArgOut {
    const KIND: Kind = Kind::ArgOut;

    const MIN_RANK: u8 = 0;

    const MAX_RANK: u8 = 0;

    ghost KIND = { kinds.ArgOut };

    ghost MIN_RANK = { 0 };

    ghost MAX_RANK = { 0 };

    ghost fresh = { λ dims start given. words (0 ∷ []) };

    ghost least = { refl };

    ghost greatest = { refl };

    ghost fresh_is = { λ dims start given. refl };
}

impl Readable for Reg {
    ghost readable = { refl };
}

impl Readable for Sram {
    ghost readable = { refl };
}

impl Readable for Fifo {
    ghost readable = { refl };
}

impl Readable for LineBuf {
    ghost readable = { refl };
}

impl Readable for ArgIn {
    ghost readable = { refl };
}

impl Writable for Reg {
    ghost writable = { refl };
}

impl Writable for Sram {
    ghost writable = { refl };
}

impl Writable for Fifo {
    ghost writable = { refl };
}

impl Writable for ArgOut {
    ghost writable = { refl };
}
