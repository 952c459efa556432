//! The sizes of the banks and the widths of the DRAMs, by their numbers.

ghost use Rattle.std.specs.Prelude.{◌≡◌, ◌++◌, [], flat_map, slice_index_or, IfOk, OnOk};
ghost use Rattle.sp_netlist.specs.Cells.{plain_cell, plain_cells};
ghost use Rattle.sp_verilog.specs.Text.{bank_sizes, dram_widths, bank_at, dram_at};

use crate::NoMemory;
use sp_netlist::Cell;
use std::alloc::Global;

/// The width of a bank's words, and how many there are.
#[derive(Clone, Copy, Debug)]
pub struct BankSize {
    pub width: u8,
    pub len: u32,
}

/// The banks and the DRAMs of a list of cells, which number them from 0 in order.
#[derive(Drop)]
pub struct Memories {
    pub banks: Vec<BankSize>,
    pub drams: Vec<u8>,
}

impl Memories {
    /// The memories of these cells.
    pub fn new(alloc: Global, cells: &[Cell]) -> Result<Memories, NoMemory>
        ensures banks { IfOk result (λ m. m.banks.items ≡ flat_map bank_sizes (plain_cells cells.now)) }
        ensures drams { IfOk result (λ m. m.drams.items ≡ flat_map dram_widths (plain_cells cells.now)) }
    {
        Ok(Memories {
            banks: banks_of(alloc, cells)?,
            drams: drams_of(alloc, cells)?,
        })
    }

    /// The size of the bank of that number.
    pub fn bank(&self, bank: u64) -> BankSize
        ensures { result ≡ bank_at self.now.banks.items self.now.drams.items bank }
    {
        match self.banks.get(bank as usize) {
            Some(size) => *size,
            None => BankSize { width: 0, len: 0 },
        }
    }

    /// The width of the DRAM of that number.
    pub fn dram(&self, dram: u32) -> u8
        ensures { result ≡ dram_at self.now.banks.items self.now.drams.items dram }
    {
        match self.drams.get(dram as usize) {
            Some(width) => *width,
            None => 0,
        }
    }
}

fn push_bank(banks: &mut Vec<BankSize>, cell: &Cell) -> Result<(), NoMemory>
    ensures { OnOk result (banks.new.items ≡ banks.old.items ++ bank_sizes (plain_cell cell.now)) }
{
    if let Cell::Bank(_, width, len) = cell {
        banks.push(BankSize {
            width: *width,
            len: *len,
        })?;
    }
    Ok(())
}

fn push_dram(drams: &mut Vec<u8>, cell: &Cell) -> Result<(), NoMemory>
    ensures { OnOk result (drams.new.items ≡ drams.old.items ++ dram_widths (plain_cell cell.now)) }
{
    if let Cell::Dram(_, _, ty, _) = cell {
        drams.push(ty.width())?;
    }
    Ok(())
}

fn banks_of(alloc: Global, cells: &[Cell]) -> Result<Vec<BankSize>, NoMemory>
    ensures { IfOk result (λ banks. banks.items ≡ flat_map bank_sizes (plain_cells cells.now)) }
{
    let mut banks = Vec::new(alloc);
    for cell in cells {
        push_bank(&mut banks, cell)?;
    }
    Ok(banks)
}

fn drams_of(alloc: Global, cells: &[Cell]) -> Result<Vec<u8>, NoMemory>
    ensures { IfOk result (λ drams. drams.items ≡ flat_map dram_widths (plain_cells cells.now)) }
{
    let mut drams = Vec::new(alloc);
    for cell in cells {
        push_dram(&mut drams, cell)?;
    }
    Ok(drams)
}
