//! A builder of netlists in which no loop can stand.
ghost use Rattle.std.specs.Prelude.{◌≡◌, ◌≢◌, ℕ, ◌+◌, ◌++◌, ◌∷◌, [], length, slice_get, IfOk, OnOk, OnErr};
ghost use Rattle.std.specs.List.{AllByRecursion as Each};
ghost use Rattle.sp_netlist.specs.Rules.{IsWidth, drives};
ghost use Rattle.sp_netlist.specs.Cells.{plain_cell};
ghost use Rattle.sp_netlist.specs.Draft.{CanAdd, Declares, IsComplete, IsDraft, Keeps, driver_count, net_count};

use crate::NoMemory;
use crate::cell::{Cell, NetId};
use crate::netlist::Netlist;
use std::alloc::Global;
use std::marker::Model;

/// A promised net: its width, and whether it is kept.
#[derive(Clone, Copy, Debug, Drop)]
struct Net {
    width: u8,
    kept: bool,
}

/// The nets that were promised and the cells that were added so far. A net that is kept has its word
/// at the start of a cycle; any other is computed from nets whose words stand before it.
#[derive(Debug, Drop)]
pub struct Builder {
    nets: Vec<Net>,
    cells: Vec<Cell>,
}

impl Model for Builder {
    ghost use Rattle.sp_netlist.specs.Cells.{plain_cells};
    ghost use Rattle.sp_netlist.specs.Draft.{Draft, IsDraft};
    ghost use Rattle.std.specs.Prelude.{map};

    ghost Value = { Draft };

    ghost view = { λ b. record { promised = map (λ n. (n.width, n.kept)) b.nets.items; cells = plain_cells b.cells.items } };

    ghost invariant = { λ b. IsDraft (record { promised = map (λ n. (n.width, n.kept)) b.nets.items; cells = plain_cells b.cells.items }) };
}

impl Builder {
    /// A builder that holds nothing.
    pub fn new(alloc: Global) -> Builder
        ensures no_nets { result.promised ≡ [] }
        ensures no_cells { result.cells ≡ [] }
        ensures draft { IsDraft result }
    {
        Builder {
            nets: Vec::new(alloc),
            cells: Vec::new(alloc),
        }
    }

    /// The next net, of 1 to 64 bits. A kept net is to be driven by an `in`, `const`, `reg`, `read`, `load` or
    /// `store` cell, any other by an `op`, `not`, `shift`, `cast` or `mux` cell.
    pub fn promise(&mut self, width: u8, kept: bool) -> Result<NetId, NoMemory>
        requires { IsWidth width }
        ensures net { IfOk result (λ net. net ≡ length self.old.promised) }
        ensures promised { OnOk result (self.new.promised ≡ self.old.promised ++ (width, kept) ∷ []) }
        ensures one_more { OnOk result (length self.new.promised ≡ length self.old.promised + 1) }
        ensures as_promised { IfOk result (λ net. slice_get self.new.promised net ≡ Some (width, kept)) }
        ensures same_cells { self.new.cells ≡ self.old.cells }
        ensures keeps { Keeps self.old self.new }
        ensures not_driven { IfOk result (λ net. driver_count self.new.cells net ≡ 0) }
        ensures draft { IsDraft self.new }
        ensures unchanged { OnErr result (self.new ≡ self.old) }
    {
        let net = NetId::new(self.nets.len() as u64);
        self.nets.push(Net { width, kept })?;
        Ok(net)
    }

    /// Adds a cell after those that were added before. On want of memory the builder stays as it was.
    pub fn add(&mut self, cell: Cell) -> Result<(), NoMemory>
        requires { CanAdd self.old (plain_cell cell) }
        ensures added { OnOk result (self.new.cells ≡ self.old.cells ++ plain_cell cell ∷ []) }
        ensures declared { OnOk result (Declares self.new.cells (plain_cell cell)) }
        ensures driven { OnOk result (Each (λ p. driver_count self.new.cells p.0 ≡ 1) (drives self.old.cells (plain_cell cell))) }
        ensures drivers { OnOk result ((net : ℕ) → driver_count self.new.cells net ≡ driver_count self.old.cells net + net_count (drives self.old.cells (plain_cell cell)) net) }
        ensures not_driven { OnOk result ((net : ℕ) → driver_count self.old.cells net ≡ 0 → Each (λ p. p.0 ≢ net) (drives self.old.cells (plain_cell cell)) → driver_count self.new.cells net ≡ 0) }
        ensures keeps { Keeps self.old self.new }
        ensures same_nets { self.new.promised ≡ self.old.promised }
        ensures draft { IsDraft self.new }
        ensures unchanged { OnErr result (self.new ≡ self.old) }
    {
        self.cells.push(cell)?;
        Ok(())
    }

    /// The netlist of the cells that were added. Each promised net is driven, and there is one `done`.
    pub fn finish(self, alloc: Global) -> Result<Netlist, NoMemory>
        requires { IsComplete self }
        ensures { IfOk result (λ netlist. netlist ≡ self.cells) }
    {
        Netlist::new(alloc, self.cells)
    }
}
