//! The cells of a listing, line by line.
ghost use Rattle.std.specs.Prelude.{◌<◌, ◌^◌, length, MatchResult};
ghost use Rattle.sp_netlist.specs.Cells.{plain_cells};
ghost use Rattle.sp_listing.specs.Reading.{pieces};
ghost use Rattle.sp_listing.specs.Lines.{ReadsBody, RefusesBody};

use crate::NoMemory;
use crate::cells::cell_of_line;
use crate::counts::Counts;
use crate::declared_lines::DeclaredLines;
use crate::error::ListError;
use crate::line_ends::split_line;
use crate::names::Names;
use sp_netlist::Cell;
use std::alloc::Global;

/// The cells so far, with what the rules on the next one ask of them.
#[derive(Drop)]
pub struct Reading {
    cells: Vec<Cell>,
    counts: Counts,
    names: Names,
}

impl Reading {
    ghost use Rattle.std.specs.Prelude.{◌≡◌, ◌≤◌, ◌+◌, ◌↔◌, ℕ, List, [], IsTrue, OnOk, IfOk, MatchOption, count_by, vec_len};
    ghost use Rattle.sp_netlist.specs.Cells.{plain_cell};
    ghost use Rattle.sp_netlist.specs.Rules.{is_done};
    ghost use Rattle.sp_listing.specs.Reading.{Follows, NamesLines, pieces};
    ghost use Rattle.sp_listing.specs.Standing.{AreDeclared};
    ghost use Rattle.sp_listing.specs.Lines.{cells_of, IsSound, Gained, Takes, Stops, TakesAll, EndsAt};

    /// Of no lines.
    pub fn new(alloc: Global) -> Reading
        ensures none { cells_of result ≡ [] }
        ensures sound { IsSound result }
    {
        Reading {
            cells: Vec::new(alloc),
            counts: Counts::new(),
            names: Names::new(alloc),
        }
    }

    // Whether a cell may come next.
    fn admits(&self, declared: &DeclaredLines, cell: &Cell) -> bool
        requires { IsSound self.now }
        ensures { (lines : List (List ℕ)) → AreDeclared lines declared.now → (IsTrue result ↔ (Follows (cells_of self.now) (plain_cell cell.now) × NamesLines lines (plain_cell cell.now))) }
    {
        if !self.counts.admit(cell) {
            return false;
        }
        if !self.names.admit(cell) {
            return false;
        }
        declared.admit(cell)
    }

    fn add(&mut self, alloc: Global, cell: Cell) -> Result<(), NoMemory>
        requires sound { IsSound self.old }
        requires room { vec_len self.old.cells < 2 ^ 32 }
        ensures { OnOk result (Gained self.old (plain_cell cell) self.new) }
    {
        self.counts.add(&cell);
        self.names.add(alloc, &cell)?;
        self.cells.push(cell)?;
        Ok(())
    }

    // Takes the next line, if it is that of a cell that may come next; whether it is.
    fn take(
        &mut self,
        alloc: Global,
        declared: &DeclaredLines,
        line: &[u8],
    ) -> Result<bool, NoMemory>
        requires sound { IsSound self.old }
        requires room { vec_len self.old.cells < 2 ^ 32 }
        ensures { IfOk result (λ taken. Takes self.old declared.now line.now taken self.new) }
    {
        let Some(cell) = cell_of_line(alloc, line)? else {
            return Ok(false);
        };
        if !self.admits(declared, &cell) {
            return Ok(false);
        }
        self.add(alloc, cell)?;
        Ok(true)
    }

    /// Takes the lines of a text that have a line end, as long as they are those of cells that may come next. What is
    /// left, if all were taken, is what follows the last line end.
    pub fn take_all<'a>(
        &mut self,
        alloc: Global,
        declared: &DeclaredLines,
        text: &'a [u8],
    ) -> Result<Option<&'a [u8]>, NoMemory>
        requires none { cells_of self.old ≡ [] }
        requires sound { IsSound self.old }
        requires few { length text.now < 2 ^ 30 }
        ensures sound { IfOk result (λ _. IsSound self.new) }
        ensures taken { IfOk result (λ r. MatchOption r (Stops declared.now (pieces text.now) self.new) (λ left. TakesAll declared.now (pieces text.now) left.now self.new)) }
    {
        let mut left = text;
        while let Some((line, rest)) = split_line(left) {
            if !self.take(alloc, declared, line)? {
                return Ok(None);
            }
            left = rest;
        }
        Ok(Some(left))
    }

    // The number of the line after those that were taken.
    fn next_line(&self) -> u32
        requires { vec_len self.now.cells < 2 ^ 31 + 1 }
        ensures { result ≡ length (cells_of self.now) + 2 }
    {
        self.cells.len() as u32 + 2
    }

    // Whether the text is over and has a done, `last` being what follows its last line end.
    fn is_complete(&self, last: &[u8]) -> bool
        requires { IsSound self.now }
        ensures { IsTrue result ↔ ((last.now ≡ []) × (1 ≤ count_by is_done (cells_of self.now))) }
    {
        last.is_empty() && self.counts.has_done()
    }

    // The line that breaks a rule at the end of a text that isn't complete.
    fn broken_end(
        &mut self,
        alloc: Global,
        declared: &DeclaredLines,
        last: &[u8],
    ) -> Result<u32, NoMemory>
        requires sound { IsSound self.old }
        requires few { vec_len self.old.cells < 2 ^ 31 }
        requires incomplete { (last.now ≡ []) → count_by is_done (cells_of self.old) ≡ 0 }
        ensures { IfOk result (EndsAt declared.now (cells_of self.old) last.now) }
    {
        if last.is_empty() {
            return Ok(self.next_line());
        }
        self.take(alloc, declared, last)?;
        Ok(self.next_line())
    }

    fn into_cells(self) -> Vec<Cell>
        ensures { plain_cells result.items ≡ cells_of self }
    {
        let Reading { cells, .. } = self;
        cells
    }
}

/// The cells of the lines after the heading, which are this text.
pub fn read_body(
    alloc: Global,
    declared: &DeclaredLines,
    text: &[u8],
) -> Result<Vec<Cell>, ListError>
    requires { length text.now < 2 ^ 30 }
    ensures { MatchResult result (λ cells. ReadsBody declared.now (pieces text.now) (plain_cells cells.items)) (RefusesBody declared.now (pieces text.now)) }
{
    let mut reading = Reading::new(alloc);
    let Some(last) = reading.take_all(alloc, declared, text)? else {
        return Err(ListError::NoListing {
            line: reading.next_line(),
        });
    };
    if reading.is_complete(last) {
        return Ok(reading.into_cells());
    }
    let line = reading.broken_end(alloc, declared, last)?;
    Err(ListError::NoListing { line })
}
