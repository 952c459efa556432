//! The cell of a listing's line.
ghost use Rattle.std.specs.Prelude.{◌≡◌, ◌==◌, IfOk, count_by};
ghost use Rattle.std.specs.List.{slice_split};
ghost use Rattle.sp_listing.specs.Readers.{texts, ReadsParts, ReadsWords, ReadsLine};

mod computed;
mod kept;
mod ports;
mod units;

use crate::NoMemory;
use crate::kind::{Kind, kind_of};
use sp_netlist::Cell;
use std::alloc::Global;

/// The cell of that kind whose parts these are, if one is formed so.
fn cell_of_kind(alloc: Global, kind: Kind, parts: &[&str]) -> Result<Option<Cell>, NoMemory>
    ensures { IfOk result (ReadsParts kind (texts parts.now)) }
{
    match kind {
        Kind::In => ports::input(alloc, parts),
        Kind::Out => ports::output(alloc, parts),
        Kind::Dram => ports::memory(alloc, parts),
        Kind::Done => Ok(kept::done(parts)),
        Kind::Const => Ok(kept::constant(parts)),
        Kind::Reg => Ok(kept::register(parts)),
        Kind::Bank => Ok(kept::bank(parts)),
        Kind::Read => Ok(kept::read_tap(parts)),
        Kind::Write => Ok(kept::write_tap(parts)),
        Kind::Op => Ok(computed::operator(parts)),
        Kind::Not => Ok(computed::not(parts)),
        Kind::Shift => Ok(computed::shift(parts)),
        Kind::Cast => Ok(computed::cast(parts)),
        Kind::Mux => Ok(computed::mux(parts)),
        Kind::Load => Ok(units::load(parts)),
        Kind::Store => Ok(units::store(parts)),
    }
}

/// The cell whose line has these words, if one is formed so.
fn cell_of_words(alloc: Global, words: &[&str]) -> Result<Option<Cell>, NoMemory>
    ensures { IfOk result (ReadsWords (texts words.now)) }
{
    let [first, parts @ ..] = words else {
        return Ok(None);
    };
    match kind_of(first) {
        Some(kind) => cell_of_kind(alloc, kind, parts),
        None => Ok(None),
    }
}

fn words_of<'a>(alloc: Global, line: &'a str) -> Result<Vec<&'a str>, NoMemory>
    ensures { IfOk result (λ words. texts words.items ≡ slice_split (λ b. b == 32) line.now) }
{
    line.split(' ').collect(alloc)
}

fn count_blanks(line: &[u8]) -> usize
    ensures { result ≡ count_by (λ b. b == 32) line.now }
{
    line.iter().filter(|byte| **byte == b' ').count()
}

/// The cell of a line without its line end, if one is formed so. No cell's line has more than eight words, so no longer
/// list of words is made.
pub fn cell_of_line(alloc: Global, line: &[u8]) -> Result<Option<Cell>, NoMemory>
    ensures { IfOk result (ReadsLine line.now) }
{
    if count_blanks(line) > 7 {
        return Ok(None);
    }
    let Ok(line) = str::from_utf8(line) else {
        return Ok(None);
    };
    let words = words_of(alloc, line)?;
    cell_of_words(alloc, &words)
}
