//! How many cells of each numbered kind stand so far.
use sp_netlist::Cell;

/// Banks, DRAMs, load and store units, and dones.
#[derive(Clone, Copy, Debug)]
pub struct Counts {
    banks: u64,
    drams: u64,
    units: u64,
    dones: u64,
}

impl Counts {
    ghost use Rattle.std.specs.Prelude.{◌≡◌, ◌<◌, ◌^◌, ◌↔◌, List, [], IsTrue, nat_lt};
    ghost use Rattle.sp_netlist.specs.Cells.{PlainCell, plain_cell};
    ghost use Rattle.sp_listing.specs.Standing.{AreCounts, Counted, InOrder};

    /// Of no cells.
    pub fn new() -> Counts
        ensures { AreCounts [] result }
    {
        Counts {
            banks: 0,
            drams: 0,
            units: 0,
            dones: 0,
        }
    }

    /// Whether the cell has the next number of its kind, and is no second done.
    pub fn admit(&self, cell: &Cell) -> bool
        ensures { (before : List PlainCell) → AreCounts before self.now → (IsTrue result ↔ InOrder before (plain_cell cell.now)) }
    {
        match cell {
            Cell::Done(_) => self.dones == 0,
            Cell::Bank(bank, _, _) => *bank == self.banks,
            Cell::Dram(dram, _, _, _) => u64::from(*dram) == self.drams,
            Cell::LoadUnit(channel, _, _, _, _, _, _) => *channel == self.units,
            Cell::StoreUnit(channel, _, _, _, _, _, _) => *channel == self.units,
            _ => true,
        }
    }

    /// Counts the cell.
    pub fn add(&mut self, cell: &Cell)
        requires few_banks { self.old.banks < 2 ^ 63 }
        requires few_drams { self.old.drams < 2 ^ 63 }
        requires few_units { self.old.units < 2 ^ 63 }
        requires few_dones { self.old.dones < 2 ^ 63 }
        ensures { Counted self.old (plain_cell cell.now) self.new }
    {
        match cell {
            Cell::Done(_) => self.dones += 1,
            Cell::Bank(_, _, _) => self.banks += 1,
            Cell::Dram(_, _, _, _) => self.drams += 1,
            Cell::LoadUnit(_, _, _, _, _, _, _) => self.units += 1,
            Cell::StoreUnit(_, _, _, _, _, _, _) => self.units += 1,
            _ => {}
        }
    }

    /// Whether a done stands.
    pub fn has_done(&self) -> bool
        ensures { result ≡ nat_lt 0 self.now.dones }
    {
        self.dones > 0
    }
}
