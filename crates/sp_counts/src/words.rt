//! How many words the memories hold, and how often.

ghost use Rattle.std.specs.Prelude.{◌≡◌, ◌*◌, max, map, filter, sum_by, count_by, if◌then◌else◌};
ghost use Rattle.sp_words.specs.Interface.{word_count};
ghost use Rattle.sp_tree.specs.Counts.{greatest, words_from};
ghost use Rattle.sp_tree.specs.Expressions.{dims};
ghost use Rattle.sp_tree.specs.Meaning.{is_dram};
ghost use Rattle.sp_tree.specs.Plain.{plain_mem};
ghost use Rattle.sp_tree.specs.PlainProgram.{PlainProgram};
ghost use Rattle.sp_tree.specs.Streams.{roomy_in};
ghost use Rattle.sp_tree.specs.Tallies.{is_among};
ghost use Rattle.sp_counts.specs.Capped.{capped};
ghost use Rattle.sp_counts.specs.Copies.{copy_of};
ghost use Rattle.sp_counts.specs.Pieces.{piece_of};

use crate::copies::{Copies, is_among};
use crate::nodes::is_port;
use crate::pieces::Piece;
use sp_tree::MemDecl;
use sp_words::Kind;

/// How many words a FIFO of a proper Stream block holds, where its depth is less.
const STREAM_ROOM: u64 = 65_536;

/// How many words there are under these dimensions.
fn word_count(dims: &[u32]) -> u64
    ensures { result ≡ capped (word_count dims.now) }
{
    let mut count: u64 = 1;
    for d in dims {
        count = count.saturating_mul(*d as u64);
    }
    count
}

/// Whether the memory at a place is among those with a number of this list.
fn is_place_among(place: usize, all: &[u32]) -> bool
    ensures { result ≡ is_among place all.now }
{
    for k in all {
        if *k as usize == place {
            return true;
        }
    }
    false
}

/// The words of the memories on the chip, as they are declared, or with the room of their block.
pub(crate) fn chip_words(mems: &[MemDecl], roomy: &[u32]) -> u64
    ensures { (p : PlainProgram) → p.mems ≡ map plain_mem mems.now → roomy_in p.mems p.body ≡ roomy.now → result ≡ capped (words_from p 0 (map plain_mem mems.now)) }
{
    let mut total: u64 = 0;
    for i in 0..mems.len() {
        if !is_port(mems[i].kind) {
            total = total.saturating_add(room(&mems[i], is_place_among(i, roomy)));
        }
    }
    total
}

fn room(mem: &MemDecl, is_roomy: bool) -> u64
    ensures { result ≡ capped (if is_roomy then max (word_count (plain_mem mem.now).dims) 65536 else word_count (plain_mem mem.now).dims) }
{
    let words = word_count(&mem.dims);
    if is_roomy {
        words.max(STREAM_ROOM)
    } else {
        words
    }
}

fn is_dram(kind: Kind) -> bool
    ensures { result ≡ is_dram kind }
{
    match kind {
        Kind::Dram => true,
        _ => false,
    }
}

/// The words of the DRAMs.
pub(crate) fn dram_words(mems: &[MemDecl]) -> u64
    ensures { result ≡ capped (sum_by (λ m. if is_dram m.kind then word_count m.dims else 0) (map plain_mem mems.now)) }
{
    let mut total: u64 = 0;
    for mem in mems {
        if is_dram(mem.kind) {
            total = total.saturating_add(word_count(&mem.dims));
        }
    }
    total
}

/// The operations of a piece, times its lanes.
#[tactic(auto, using(crate::proofs::CappedLemmas::times_capped))]
fn size(piece: &Piece) -> u64
    ensures { result ≡ capped (piece.now.operations * piece.now.lanes) }
{
    piece.operations.saturating_mul(piece.lanes)
}

/// The greatest size of a run.
pub(crate) fn greatest_run(pieces: &[Piece]) -> u64
    ensures { result ≡ capped (greatest (map (λ x. x.operations * x.lanes) (filter (λ x. x.is_run) (map piece_of pieces.now)))) }
{
    let mut most: u64 = 0;
    for piece in pieces {
        if piece.is_run {
            most = most.max(size(piece));
        }
    }
    most
}

/// The sizes of all pieces together.
pub(crate) fn all_operations(pieces: &[Piece]) -> u64
    ensures { result ≡ capped (sum_by (λ x. x.operations * x.lanes) (map piece_of pieces.now)) }
{
    let mut total: u64 = 0;
    for piece in pieces {
        total = total.saturating_add(size(piece));
    }
    total
}

/// How many pieces read a memory, at least 1.
fn readers_of(pieces: &[Piece], m: u32) -> u64
    ensures { result ≡ max 1 (count_by (λ x. is_among m x.reads) (map piece_of pieces.now)) }
{
    let mut count: u64 = 0;
    for piece in pieces {
        if is_among(m, &piece.reads) {
            count += 1;
        }
    }
    count.max(1)
}

/// The words of a memory, by its number.
fn words_of(mems: &[MemDecl], m: u32) -> u64
    ensures { result ≡ capped (word_count (dims (map plain_mem mems.now) m)) }
{
    match mems.get(m as usize) {
        Some(mem) => word_count(&mem.dims),
        None => 1,
    }
}

fn copied_words(mems: &[MemDecl], pieces: &[Piece], copies: &Copies) -> u64
    ensures { result ≡ capped (word_count (dims (map plain_mem mems.now) copies.now.mem) * copies.now.factor * max 1 (count_by (λ x. is_among copies.now.mem x.reads) (map piece_of pieces.now))) }
{
    words_of(mems, copies.mem)
        .saturating_mul(copies.factor)
        .saturating_mul(readers_of(pieces, copies.mem))
}

/// The words of each memory on the chip times its lanes, its readers and its stages.
pub(crate) fn copy_words(mems: &[MemDecl], pieces: &[Piece], all: &[Copies]) -> u64
    ensures { result ≡ capped (sum_by (λ c. word_count (dims (map plain_mem mems.now) c.0) * c.1 * max 1 (count_by (λ x. is_among c.0 x.reads) (map piece_of pieces.now))) (map copy_of all.now)) }
{
    let mut total: u64 = 0;
    for copies in all {
        total = total.saturating_add(copied_words(mems, pieces, copies));
    }
    total
}
