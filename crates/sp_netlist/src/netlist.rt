//! Netlists: lists of cells that obey the rules, with their ports.
ghost use Rattle.std.specs.Prelude.{◌≡◌, ◌++◌, ◌∷◌, [], filter_map, string_bytes, IfOk, OnOk};
ghost use Rattle.sp_netlist.specs.Cells.{plain_cell, plain_cells};
ghost use Rattle.sp_netlist.specs.Rules.{IsNetlist};
ghost use Rattle.sp_words.specs.Ports.{plain_port, plain_ports};
ghost use Rattle.sp_netlist.specs.Ports.{ports_of, in_port, out_port, dram_port};

use crate::NoMemory;
use crate::cell::Cell;
use sp_words::{PortDecl, Ports, Ty};
use std::alloc::Global;
use std::marker::Model;

/// Cells that obey the rules of a netlist, and the ports that they declare.
#[derive(Debug, Drop)]
pub struct Netlist {
    cells: Vec<Cell>,
    ports: Ports,
}

impl Model for Netlist {
    ghost use Rattle.std.specs.Prelude.{◌≡◌, List};
    ghost use Rattle.sp_netlist.specs.Cells.{PlainCell, plain_cells};
    ghost use Rattle.sp_netlist.specs.Rules.{IsNetlist};
    ghost use Rattle.sp_words.specs.Ports.{plain_ports};
    ghost use Rattle.sp_netlist.specs.Ports.{ports_of};

    ghost Value = { List PlainCell };

    ghost view = { λ n. plain_cells n.cells.items };

    ghost invariant = { λ n. IsNetlist (plain_cells n.cells.items) × (plain_ports n.ports ≡ ports_of (plain_cells n.cells.items)) };
}

impl Netlist {
    /// The netlist of these cells.
    pub(crate) fn new(alloc: Global, cells: Vec<Cell>) -> Result<Netlist, NoMemory>
        requires { IsNetlist (plain_cells cells.items) }
        ensures { IfOk result (λ netlist. netlist ≡ plain_cells cells.items) }
    {
        let ports = declared_ports(alloc, &cells)?;
        Ok(Netlist { cells, ports })
    }

    /// The cells in order.
    pub fn cells(&self) -> &[Cell]
        ensures cells { plain_cells result.now ≡ self.now }
        ensures netlist { IsNetlist self.now }
    {
        &self.cells
    }

    /// The `in`, `out` and `dram` cells in order.
    pub fn ports(&self) -> &Ports
        ensures ports { plain_ports result.now ≡ ports_of self.now }
        ensures netlist { IsNetlist self.now }
    {
        &self.ports
    }
}

fn declared_port(alloc: Global, name: &str, ty: Ty, dims: &[u32]) -> Result<PortDecl, NoMemory>
    ensures { IfOk result (λ port. plain_port port ≡ record { name = name.now; ty = ty; dims = dims.now }) }
{
    Ok(PortDecl {
        name: String::from_str(alloc, name)?,
        ty,
        dims: Vec::from_slice(alloc, dims)?,
    })
}

/// Adds what the cell declares, if it declares a port.
fn add_port(alloc: Global, ports: &mut Ports, cell: &Cell) -> Result<(), NoMemory>
    ensures args { OnOk result ((plain_ports ports.new).args ≡ (plain_ports ports.old).args ++ filter_map in_port (plain_cell cell.now ∷ [])) }
    ensures outs { OnOk result ((plain_ports ports.new).outs ≡ (plain_ports ports.old).outs ++ filter_map out_port (plain_cell cell.now ∷ [])) }
    ensures drams { OnOk result ((plain_ports ports.new).drams ≡ (plain_ports ports.old).drams ++ filter_map dram_port (plain_cell cell.now ∷ [])) }
{
    match cell {
        Cell::In(name, _, ty) => ports.args.push(declared_port(alloc, name, *ty, &[])?)?,
        Cell::Out(name, _, ty) => ports.outs.push(declared_port(alloc, name, *ty, &[])?)?,
        Cell::Dram(_, name, ty, dims) => ports.drams.push(declared_port(alloc, name, *ty, dims)?)?,
        _ => {}
    }
    Ok(())
}

fn declared_ports(alloc: Global, cells: &[Cell]) -> Result<Ports, NoMemory>
    ensures { IfOk result (λ ports. plain_ports ports ≡ ports_of (plain_cells cells.now)) }
{
    let mut ports = Ports {
        args: Vec::new(alloc),
        outs: Vec::new(alloc),
        drams: Vec::new(alloc),
    };
    for cell in cells {
        add_port(alloc, &mut ports, cell)?;
    }
    Ok(ports)
}
