//! The nets that the cells of a list drive and read, with their widths.
ghost use Rattle.std.specs.Prelude.{◌≡◌, ◌∷◌, ◌++◌, [], ◌<◌, count_by, filter_map, IfOk, OnOk};
ghost use Rattle.sp_netlist.specs.Cells.{plain_cell, plain_cells};
ghost use Rattle.sp_netlist.specs.Rules.{is_bank, is_dram, bank_width, dram_width, drives, reads, driven_nets, read_nets, op_width};
ghost use Rattle.sp_netlist.specs.Refusals.{AreLines};
ghost use Rattle.sp_netlist.specs.Tables.{AreWidths, NamesStanding, bank_width_in, dram_width_in, wire_pairs};

use crate::NoMemory;
use crate::cell::{Cell, CellOp, NetId};
use crate::parts::Wire;
use sp_words::Ty;
use std::alloc::Global;

fn push_bank_width(widths: &mut Vec<u8>, cell: &Cell) -> Result<(), NoMemory>
    ensures { OnOk result (widths.new.items ≡ widths.old.items ++ filter_map bank_width_in (plain_cell cell.now ∷ [])) }
{
    if let Cell::Bank(_, width, _) = cell {
        widths.push(*width)?;
    }
    Ok(())
}

fn push_dram_width(widths: &mut Vec<u8>, cell: &Cell) -> Result<(), NoMemory>
    ensures { OnOk result (widths.new.items ≡ widths.old.items ++ filter_map dram_width_in (plain_cell cell.now ∷ [])) }
{
    if let Cell::Dram(_, _, ty, _) = cell {
        widths.push(ty.width())?;
    }
    Ok(())
}

/// The widths of the banks by their numbers.
fn bank_widths(alloc: Global, cells: &[Cell]) -> Result<Vec<u8>, NoMemory>
    ensures { IfOk result (λ widths. widths.items ≡ filter_map bank_width_in (plain_cells cells.now)) }
{
    let mut widths = Vec::new(alloc);
    for cell in cells {
        push_bank_width(&mut widths, cell)?;
    }
    Ok(widths)
}

/// The widths of the DRAMs by their numbers.
fn dram_widths(alloc: Global, cells: &[Cell]) -> Result<Vec<u8>, NoMemory>
    ensures { IfOk result (λ widths. widths.items ≡ filter_map dram_width_in (plain_cells cells.now)) }
{
    let mut widths = Vec::new(alloc);
    for cell in cells {
        push_dram_width(&mut widths, cell)?;
    }
    Ok(widths)
}

fn push_wire(wires: &mut Vec<Wire>, net: NetId, width: u8) -> Result<(), NoMemory>
    ensures { OnOk result (wire_pairs wires.new.items ≡ wire_pairs wires.old.items ++ (net, width) ∷ []) }
{
    wires.push(Wire { net, width })?;
    Ok(())
}

/// A net of one bit, and an address.
fn push_address(wires: &mut Vec<Wire>, bit: NetId, addr: NetId) -> Result<(), NoMemory>
    ensures { OnOk result (wire_pairs wires.new.items ≡ wire_pairs wires.old.items ++ (bit, 1) ∷ (addr, 32) ∷ []) }
{
    push_wire(wires, bit, 1)?;
    push_wire(wires, addr, 32)
}

fn width_of_op(ty: Ty, op: CellOp) -> u8
    ensures { result ≡ op_width ty op }
{
    match op {
        CellOp::Lt | CellOp::Eq => 1,
        _ => ty.width(),
    }
}

/// Cells, and the widths of their banks and DRAMs by their numbers.
#[derive(Drop)]
pub(crate) struct Widths<'a> {
    pub cells: &'a [Cell],
    pub banks: Vec<u8>,
    pub drams: Vec<u8>,
}

impl<'a> Widths<'a> {
    pub fn new(alloc: Global, cells: &'a [Cell]) -> Result<Widths<'a>, NoMemory>
        requires { AreLines (plain_cells cells.now) }
        ensures same { IfOk result (λ widths. widths.cells.now ≡ cells.now) }
        ensures tables { IfOk result (λ widths. AreWidths (plain_cells cells.now) widths.banks.items widths.drams.items) }
    {
        let banks = bank_widths(alloc, cells)?;
        let drams = dram_widths(alloc, cells)?;
        Ok(Widths {
            cells,
            banks,
            drams,
        })
    }

    fn bank(&self, bank: u64) -> u8
        requires tables { AreWidths (plain_cells self.now.cells.now) self.now.banks.items self.now.drams.items }
        requires stands { bank < count_by is_bank (plain_cells self.now.cells.now) }
        ensures { result ≡ bank_width (plain_cells self.now.cells.now) bank }
    {
        self.banks[bank as usize]
    }

    fn dram(&self, dram: u32) -> u8
        requires tables { AreWidths (plain_cells self.now.cells.now) self.now.banks.items self.now.drams.items }
        requires stands { dram < count_by is_dram (plain_cells self.now.cells.now) }
        ensures { result ≡ dram_width (plain_cells self.now.cells.now) dram }
    {
        self.drams[dram as usize]
    }

    /// Adds the nets that the cell drives.
    fn push_driven(&self, wires: &mut Vec<Wire>, cell: &Cell) -> Result<(), NoMemory>
        requires tables { AreWidths (plain_cells self.now.cells.now) self.now.banks.items self.now.drams.items }
        requires stands { NamesStanding (plain_cells self.now.cells.now) (plain_cell cell.now) }
        ensures { OnOk result (wire_pairs wires.new.items ≡ wire_pairs wires.old.items ++ drives (plain_cells self.now.cells.now) (plain_cell cell.now)) }
    {
        match cell {
            Cell::In(_, net, ty) => push_wire(wires, *net, ty.width()),
            Cell::Const(net, width, _) => push_wire(wires, *net, *width),
            Cell::Op(net, ty, op, _, _) => push_wire(wires, *net, width_of_op(*ty, *op)),
            Cell::Not(net, ty, _) => push_wire(wires, *net, ty.width()),
            Cell::Shift(net, ty, _, _, _) => push_wire(wires, *net, ty.width()),
            Cell::Cast(net, _, ty, _) => push_wire(wires, *net, ty.width()),
            Cell::Mux(net, width, _, _, _) => push_wire(wires, *net, *width),
            Cell::Hold(net, width, _, _, _) => push_wire(wires, *net, *width),
            Cell::ReadTap(net, bank, _, _) => push_wire(wires, *net, self.bank(*bank)),
            Cell::LoadUnit(_, dram, ready, net, _, _, _) => {
                push_wire(wires, *ready, 1)?;
                push_wire(wires, *net, self.dram(*dram))
            }
            Cell::StoreUnit(_, _, ready, _, _, _, _) => push_wire(wires, *ready, 1),
            Cell::Out(_, _, _)
            | Cell::Done(_)
            | Cell::Bank(_, _, _)
            | Cell::WriteTap(_, _, _, _)
            | Cell::Dram(_, _, _, _) => Ok(()),
        }
    }

    /// Adds the nets that the cell reads.
    fn push_read(&self, wires: &mut Vec<Wire>, cell: &Cell) -> Result<(), NoMemory>
        requires tables { AreWidths (plain_cells self.now.cells.now) self.now.banks.items self.now.drams.items }
        requires stands { NamesStanding (plain_cells self.now.cells.now) (plain_cell cell.now) }
        ensures { OnOk result (wire_pairs wires.new.items ≡ wire_pairs wires.old.items ++ reads (plain_cells self.now.cells.now) (plain_cell cell.now)) }
    {
        match cell {
            Cell::Out(_, net, ty) => push_wire(wires, *net, ty.width()),
            Cell::Done(net) => push_wire(wires, *net, 1),
            Cell::Op(_, ty, _, a, b) => {
                push_wire(wires, *a, ty.width())?;
                push_wire(wires, *b, ty.width())
            }
            Cell::Not(_, ty, a) => push_wire(wires, *a, ty.width()),
            Cell::Shift(_, ty, _, a, _) => push_wire(wires, *a, ty.width()),
            Cell::Cast(_, from, _, a) => push_wire(wires, *a, from.width()),
            Cell::Mux(_, width, choice, a, b) => {
                push_wire(wires, *choice, 1)?;
                push_wire(wires, *a, *width)?;
                push_wire(wires, *b, *width)
            }
            Cell::Hold(_, width, _, next, enable) => {
                push_wire(wires, *next, *width)?;
                push_wire(wires, *enable, 1)
            }
            Cell::ReadTap(_, _, enable, addr) => push_address(wires, *enable, *addr),
            Cell::WriteTap(bank, enable, addr, word) => {
                push_address(wires, *enable, *addr)?;
                push_wire(wires, *word, self.bank(*bank))
            }
            Cell::LoadUnit(_, _, _, _, request, last, addr) => {
                push_wire(wires, *request, 1)?;
                push_address(wires, *last, *addr)
            }
            Cell::StoreUnit(_, dram, _, request, last, addr, word) => {
                push_wire(wires, *request, 1)?;
                push_address(wires, *last, *addr)?;
                push_wire(wires, *word, self.dram(*dram))
            }
            Cell::In(_, _, _)
            | Cell::Const(_, _, _)
            | Cell::Bank(_, _, _)
            | Cell::Dram(_, _, _, _) => Ok(()),
        }
    }

    /// The nets that the cells drive, in order.
    pub fn driven(&self, alloc: Global) -> Result<Vec<Wire>, NoMemory>
        requires lines { AreLines (plain_cells self.now.cells.now) }
        requires tables { AreWidths (plain_cells self.now.cells.now) self.now.banks.items self.now.drams.items }
        ensures { IfOk result (λ wires. wire_pairs wires.items ≡ driven_nets (plain_cells self.now.cells.now)) }
    {
        let mut wires = Vec::new(alloc);
        let cells = self.cells;
        for cell in cells {
            self.push_driven(&mut wires, cell)?;
        }
        Ok(wires)
    }

    /// The nets that the cells read, in order.
    pub fn read(&self, alloc: Global) -> Result<Vec<Wire>, NoMemory>
        requires lines { AreLines (plain_cells self.now.cells.now) }
        requires tables { AreWidths (plain_cells self.now.cells.now) self.now.banks.items self.now.drams.items }
        ensures { IfOk result (λ wires. wire_pairs wires.items ≡ read_nets (plain_cells self.now.cells.now)) }
    {
        let mut wires = Vec::new(alloc);
        let cells = self.cells;
        for cell in cells {
            self.push_read(&mut wires, cell)?;
        }
        Ok(wires)
    }
}
