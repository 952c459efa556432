//! The module of a netlist.

ghost use Rattle.std.specs.Prelude.{◌≡◌, ◌++◌, IfOk, OnOk, string_bytes};
ghost use Rattle.sp_netlist.specs.Cells.{plain_cells};
ghost use Rattle.sp_verilog.specs.Text.{AreNets, IsVerilog, module_begin, ports_end, module_end, parts_text};

use crate::NoMemory;
use crate::cells::{push_all_lines, push_all_ports, push_banks};
use crate::memories::Memories;
use crate::nets::{NetLine, ascending, push_net_lines};
use sp_netlist::{Cell, Netlist};
use std::alloc::Global;

#[tactic(auto, unfolding(crate::specs::Text::module_begin))]
fn begin(alloc: Global) -> Result<String, NoMemory>
    ensures { IfOk result (λ text. string_bytes text ≡ module_begin) }
{
    String::from_str(
        alloc,
        "module spatial(\n  input wire clk,\n  input wire rst",
    )
}

#[tactic(auto, unfolding(crate::specs::Text::ports_end))]
fn push_ports_end(text: &mut String) -> Result<(), NoMemory>
    ensures { OnOk result (string_bytes text.new ≡ string_bytes text.old ++ ports_end) }
{
    text.push_str("\n);\n")
}

#[tactic(auto, unfolding(crate::specs::Text::module_end))]
fn push_module_end(text: &mut String) -> Result<(), NoMemory>
    ensures { OnOk result (string_bytes text.new ≡ string_bytes text.old ++ module_end) }
{
    text.push_str("endmodule\n")
}

/// The module of these cells, whose nets stand in this order.
fn module_with(
    alloc: Global,
    memories: &Memories,
    cells: &[Cell],
    nets: &[NetLine],
) -> Result<String, NoMemory>
    ensures { IfOk result (λ text. string_bytes text ≡ parts_text memories.now.banks.items memories.now.drams.items (plain_cells cells.now) nets.now) }
{
    let mut text = begin(alloc)?;
    push_all_ports(&mut text, memories, cells)?;
    push_ports_end(&mut text)?;
    push_net_lines(&mut text, nets)?;
    push_banks(&mut text, cells)?;
    push_all_lines(&mut text, memories, cells)?;
    push_module_end(&mut text)?;
    Ok(text)
}

fn module_of(alloc: Global, cells: &[Cell]) -> Result<String, NoMemory>
    ensures { IfOk result (λ text. IsVerilog (plain_cells cells.now) (string_bytes text)) }
{
    let memories = Memories::new(alloc, cells)?;
    let nets = ascending(alloc, &memories, cells)?;
    module_with(alloc, &memories, cells, &nets)
}

/// The nets of a netlist, ascending, each with its width in bits and whether it keeps its word: those that the
/// Verilog text declares.
pub fn wires(alloc: Global, netlist: &Netlist) -> Result<Vec<NetLine>, NoMemory>
    ensures { IfOk result (λ nets. AreNets netlist.now nets.items) }
{
    let cells = netlist.cells();
    let memories = Memories::new(alloc, cells)?;
    ascending(alloc, &memories, cells)
}

/// The Verilog text of a netlist (IEEE 1364-2005): one module `spatial` whose ports are a clock, a
/// synchronous reset, the arguments, the results, `done` and those of the channels of the DRAMs. Each cell
/// has a fixed pattern; `docs/verilog.md` shows them.
pub fn verilog(alloc: Global, netlist: &Netlist) -> Result<String, NoMemory>
    ensures { IfOk result (λ text. IsVerilog netlist.now (string_bytes text)) }
{
    module_of(alloc, netlist.cells())
}
