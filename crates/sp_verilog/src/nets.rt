//! The nets of a netlist, in ascending order, each as a wire or a register.

ghost use Rattle.std.specs.Prelude.{◌≡◌, ◌++◌, ◌∷◌, [], true, false, flat_map, string_bytes, IfOk, OnOk, IsPermutation};
ghost use Rattle.std.specs.List.Sorted.{IsNonDecreasingBy};
ghost use Rattle.sp_netlist.specs.Cells.{plain_cell, plain_cells};
ghost use Rattle.sp_netlist.specs.Rules.{op_width};
ghost use Rattle.sp_verilog.specs.Text.{cell_nets, net_text};

use crate::NoMemory;
use crate::memories::Memories;
use crate::pieces::Range;
use sp_netlist::{Cell, CellOp, NetId};
use sp_words::Ty;
use std::alloc::Global;
use std::fmt::Write;

/// A net with its width, and whether it keeps its word from cycle to cycle.
#[derive(Clone, Copy, Debug)]
pub struct NetLine {
    pub net: u64,
    pub width: u8,
    pub register: bool,
}

fn push_wire(nets: &mut Vec<NetLine>, net: NetId, width: u8) -> Result<(), NoMemory>
    ensures { OnOk result (nets.new.items ≡ nets.old.items ++ record { net = net; width = width; register = false } ∷ []) }
{
    nets.push(NetLine {
        net: net.number(),
        width,
        register: false,
    })?;
    Ok(())
}

fn push_register(nets: &mut Vec<NetLine>, net: NetId, width: u8) -> Result<(), NoMemory>
    ensures { OnOk result (nets.new.items ≡ nets.old.items ++ record { net = net; width = width; register = true } ∷ []) }
{
    nets.push(NetLine {
        net: net.number(),
        width,
        register: true,
    })?;
    Ok(())
}

fn width_of_op(ty: Ty, op: CellOp) -> u8
    ensures { result ≡ op_width ty op }
{
    match op {
        CellOp::Lt | CellOp::Eq => 1,
        _ => ty.width(),
    }
}

/// Adds the nets that the cell drives.
fn push_nets(nets: &mut Vec<NetLine>, memories: &Memories, cell: &Cell) -> Result<(), NoMemory>
    ensures { OnOk result (nets.new.items ≡ nets.old.items ++ cell_nets memories.now.banks.items memories.now.drams.items (plain_cell cell.now)) }
{
    match cell {
        Cell::In(_, net, ty) => push_wire(nets, *net, ty.width()),
        Cell::Const(net, width, _) => push_wire(nets, *net, *width),
        Cell::Op(net, ty, op, _, _) => push_wire(nets, *net, width_of_op(*ty, *op)),
        Cell::Not(net, ty, _) => push_wire(nets, *net, ty.width()),
        Cell::Shift(net, ty, _, _, _) => push_wire(nets, *net, ty.width()),
        Cell::Cast(net, _, to, _) => push_wire(nets, *net, to.width()),
        Cell::Mux(net, width, _, _, _) => push_wire(nets, *net, *width),
        Cell::Hold(net, width, _, _, _) => push_register(nets, *net, *width),
        Cell::ReadTap(net, bank, _, _) => push_register(nets, *net, memories.bank(*bank).width),
        Cell::LoadUnit(_, dram, ready, net, _, _, _) => {
            push_wire(nets, *ready, 1)?;
            push_wire(nets, *net, memories.dram(*dram))
        }
        Cell::StoreUnit(_, _, ready, _, _, _, _) => push_wire(nets, *ready, 1),
        Cell::Out(_, _, _)
        | Cell::Done(_)
        | Cell::Bank(_, _, _)
        | Cell::WriteTap(_, _, _, _)
        | Cell::Dram(_, _, _, _) => Ok(()),
    }
}

fn driven(alloc: Global, memories: &Memories, cells: &[Cell]) -> Result<Vec<NetLine>, NoMemory>
    ensures { IfOk result (λ nets. nets.items ≡ flat_map (cell_nets memories.now.banks.items memories.now.drams.items) (plain_cells cells.now)) }
{
    let mut nets = Vec::new(alloc);
    for cell in cells {
        push_nets(&mut nets, memories, cell)?;
    }
    Ok(nets)
}

/// The nets that the cells drive, in ascending order.
pub fn ascending(
    alloc: Global,
    memories: &Memories,
    cells: &[Cell],
) -> Result<Vec<NetLine>, NoMemory>
    ensures all_nets { IfOk result (λ nets. IsPermutation (flat_map (cell_nets memories.now.banks.items memories.now.drams.items) (plain_cells cells.now)) nets.items) }
    ensures ascending { IfOk result (λ nets. IsNonDecreasingBy (λ n. n.net) nets.items) }
{
    let mut nets = driven(alloc, memories, cells)?;
    nets.sort_unstable_by_key(|line| line.net);
    Ok(nets)
}

/// Appends the line of a net.
fn push_net(text: &mut String, line: &NetLine) -> Result<(), NoMemory>
    ensures { OnOk result (string_bytes text.new ≡ string_bytes text.old ++ net_text line.now) }
{
    let bits = Range(line.width);
    let net = line.net;
    if line.register {
        writeln!(text, "  reg {bits} n{net};")
    } else {
        writeln!(text, "  wire {bits} n{net};")
    }
}

/// Appends the lines of the nets.
pub fn push_net_lines(text: &mut String, nets: &[NetLine]) -> Result<(), NoMemory>
    ensures { OnOk result (string_bytes text.new ≡ string_bytes text.old ++ flat_map net_text nets.now) }
{
    for line in nets {
        push_net(text, line)?;
    }
    Ok(())
}
