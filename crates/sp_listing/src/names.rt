//! The names of the ports so far.
ghost use Rattle.std.specs.Prelude.{◌≡◌, ℕ, List, [], ◌∷◌, ◌++◌, OnOk};
ghost use Rattle.std.specs.List.{list_any};
ghost use Rattle.std.specs.Str.{bytes_eq};
ghost use Rattle.sp_listing.specs.Standing.{HasNames};

use crate::NoMemory;
use sp_netlist::Cell;
use std::alloc::Global;
use std::collections::BTreeSet;

fn has_name(names: &BTreeSet<String>, name: &str) -> bool
    ensures { (known : List (List ℕ)) → HasNames known names.now → result ≡ list_any (bytes_eq name.now) known }
{
    names.contains(name)
}

fn add_name(alloc: Global, names: &mut BTreeSet<String>, name: &str) -> Result<(), NoMemory>
    ensures { OnOk result ((known : List (List ℕ)) → HasNames known names.old → HasNames (known ++ name.now ∷ []) names.new) }
{
    let name = String::from_str(alloc, name)?;
    names.insert(name)?;
    Ok(())
}

/// The names of inputs, of outputs and of DRAMs.
#[derive(Drop)]
pub struct Names {
    ins: BTreeSet<String>,
    outs: BTreeSet<String>,
    drams: BTreeSet<String>,
}

impl Names {
    ghost use Rattle.std.specs.Prelude.{◌↔◌, IsTrue};
    ghost use Rattle.sp_netlist.specs.Cells.{PlainCell, plain_cell};
    ghost use Rattle.sp_listing.specs.Standing.{AreNames, IsNew};

    /// Of no cells.
    pub fn new(alloc: Global) -> Names
        ensures { AreNames [] result }
    {
        Names {
            ins: BTreeSet::new(alloc),
            outs: BTreeSet::new(alloc),
            drams: BTreeSet::new(alloc),
        }
    }

    /// Whether the cell's name is new in its kind.
    pub fn admit(&self, cell: &Cell) -> bool
        ensures { (before : List PlainCell) → AreNames before self.now → (IsTrue result ↔ IsNew before (plain_cell cell.now)) }
    {
        match cell {
            Cell::In(name, _, _) => !has_name(&self.ins, name),
            Cell::Out(name, _, _) => !has_name(&self.outs, name),
            Cell::Dram(_, name, _, _) => !has_name(&self.drams, name),
            _ => true,
        }
    }

    /// Adds the cell's name.
    pub fn add(&mut self, alloc: Global, cell: &Cell) -> Result<(), NoMemory>
        ensures { OnOk result ((before : List PlainCell) → AreNames before self.old → AreNames (before ++ plain_cell cell.now ∷ []) self.new) }
    {
        match cell {
            Cell::In(name, _, _) => add_name(alloc, &mut self.ins, name),
            Cell::Out(name, _, _) => add_name(alloc, &mut self.outs, name),
            Cell::Dram(_, name, _, _) => add_name(alloc, &mut self.drams, name),
            _ => Ok(()),
        }
    }
}
