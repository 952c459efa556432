//! The banks and DRAMs that have a line.
ghost use Rattle.std.specs.Prelude.{◌≡◌, ◌≢◌, ◌∷◌, ℕ, List, false};

use crate::NoMemory;
use crate::cells::cell_of_line;
use crate::line_ends::split_line;
use sp_netlist::Cell;
use std::alloc::Global;
use std::collections::BTreeSet;

// Whether a line begins as that of a bank or a DRAM does. Other lines needn't be read.
fn may_declare(line: &[u8]) -> bool
    ensures { result ≡ false → (rest : List ℕ) → (line.now ≢ 98 ∷ rest) × (line.now ≢ 100 ∷ rest) }
{
    if line.is_empty() {
        return false;
    }
    line[0] == b'b' || line[0] == b'd'
}

/// The numbers of the banks and of the DRAMs of which some line of a text is.
#[derive(Drop)]
pub struct DeclaredLines {
    banks: BTreeSet<u64>,
    drams: BTreeSet<u32>,
}

impl DeclaredLines {
    ghost use Rattle.std.specs.Prelude.{◌≡◌, ◌↔◌, ℕ, List, [], ◌∷◌, ◌++◌, IsTrue, OnOk, IfOk};
    ghost use Rattle.sp_netlist.specs.Cells.{PlainCell, plain_cell};
    ghost use Rattle.sp_listing.specs.Reading.{IsFormed, NamesLines, pieces};
    ghost use Rattle.sp_listing.specs.Readers.{ReadsLine};
    ghost use Rattle.sp_listing.specs.Text.{cell_text};
    ghost use Rattle.sp_listing.specs.Standing.{AreDeclared};

    fn new(alloc: Global) -> DeclaredLines
        ensures { AreDeclared [] result }
    {
        DeclaredLines {
            banks: BTreeSet::new(alloc),
            drams: BTreeSet::new(alloc),
        }
    }

    // Adds what a cell's line declares.
    fn add(&mut self, cell: &Cell) -> Result<(), NoMemory>
        ensures { OnOk result ((lines : List (List ℕ)) → IsFormed (plain_cell cell.now) → AreDeclared lines self.old → AreDeclared (lines ++ cell_text (plain_cell cell.now) ∷ []) self.new) }
    {
        match cell {
            Cell::Bank(bank, _, _) => {
                self.banks.insert(*bank)?;
            }
            Cell::Dram(dram, _, _, _) => {
                self.drams.insert(*dram)?;
            }
            _ => {}
        }
        Ok(())
    }

    // Adds what a line declares.
    fn add_line(&mut self, alloc: Global, line: &[u8]) -> Result<(), NoMemory>
        ensures { OnOk result ((lines : List (List ℕ)) → AreDeclared lines self.old → AreDeclared (lines ++ line.now ∷ []) self.new) }
    {
        if !may_declare(line) {
            return Ok(());
        }
        let Some(cell) = cell_of_line(alloc, line)? else {
            return Ok(());
        };
        self.add(&cell)
    }

    /// Those of the lines of a text.
    pub fn of_text(alloc: Global, text: &[u8]) -> Result<DeclaredLines, NoMemory>
        ensures { IfOk result (AreDeclared (pieces text.now)) }
    {
        let mut declared = DeclaredLines::new(alloc);
        let mut left = text;
        while let Some((line, rest)) = split_line(left) {
            declared.add_line(alloc, line)?;
            left = rest;
        }
        declared.add_line(alloc, left)?;
        Ok(declared)
    }

    /// Whether the bank or the DRAM that the cell names has a line.
    pub fn admit(&self, cell: &Cell) -> bool
        ensures { (lines : List (List ℕ)) → AreDeclared lines self.now → (IsTrue result ↔ NamesLines lines (plain_cell cell.now)) }
    {
        match cell {
            Cell::ReadTap(_, bank, _, _) => self.banks.contains(bank),
            Cell::WriteTap(bank, _, _, _) => self.banks.contains(bank),
            Cell::LoadUnit(_, dram, _, _, _, _, _) => self.drams.contains(dram),
            Cell::StoreUnit(_, dram, _, _, _, _, _) => self.drams.contains(dram),
            _ => true,
        }
    }
}
