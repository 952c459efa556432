//! Writes to banks and DRAMs.
ghost use Rattle.std.specs.Prelude.{◌≡◌, All};
ghost use Rattle.std.specs.List.{fold};
ghost use Rattle.sp_netlist.specs.Cells.{plain_cell, plain_cells};
ghost use Rattle.sp_sim.specs.Rows.{word_of};
ghost use Rattle.sp_sim.specs.Writing.{bank_write, dram_write, BankWordFits, DramWordFits};

use crate::memory::{Memory, write_at};
use crate::row::Row;
use sp_netlist::Cell;

/// Does what an enabled write tap does.
fn write_bank(cell: &Cell, row: &Row, banks: &mut [Memory])
    requires { BankWordFits (word_of row.now) banks.old (plain_cell cell.now) }
    ensures { banks.new ≡ bank_write (word_of row.now) banks.old (plain_cell cell.now) }
{
    if let Cell::WriteTap(bank, enable, addr, word) = cell {
        if row.get(*enable) == 1 {
            write_at(banks, *bank, row.get(*addr), row.get(*word));
        }
    }
}

/// Does what a store unit does whose READY is 1.
fn write_dram(cell: &Cell, row: &Row, drams: &mut [Memory])
    requires { DramWordFits (word_of row.now) drams.old (plain_cell cell.now) }
    ensures { drams.new ≡ dram_write (word_of row.now) drams.old (plain_cell cell.now) }
{
    if let Cell::StoreUnit(_, dram, ready, _, _, addr, word) = cell {
        if row.get(*ready) == 1 {
            write_at(drams, u64::from(*dram), row.get(*addr), row.get(*word));
        }
    }
}

/// The enabled write taps write, in their order.
pub(crate) fn write_banks(cells: &[Cell], row: &Row, banks: &mut [Memory])
    requires { All (BankWordFits (word_of row.now) banks.old) (plain_cells cells.now) }
    ensures { banks.new ≡ fold (bank_write (word_of row.now)) banks.old (plain_cells cells.now) }
{
    for cell in cells {
        write_bank(cell, row, banks);
    }
}

/// The stores whose READY is 1 write, in their order.
pub(crate) fn write_drams(cells: &[Cell], row: &Row, drams: &mut [Memory])
    requires { All (DramWordFits (word_of row.now) drams.old) (plain_cells cells.now) }
    ensures { drams.new ≡ fold (dram_write (word_of row.now)) drams.old (plain_cells cells.now) }
{
    for cell in cells {
        write_dram(cell, row, drams);
    }
}
