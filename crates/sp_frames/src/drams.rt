//! The DRAMs of a netlist, which stand behind its arguments.
ghost use Rattle.std.specs.Prelude.{◌≡◌, ℕ, ◌<◌, ◌^◌, ◌++◌, ◌∷◌, [], length, map, filter_map, count_by, Contains, string_bytes, OnOk};
ghost use Rattle.sp_words.specs.Names.{IsName};
ghost use Rattle.sp_words.specs.Ports.{plain_port};
ghost use Rattle.sp_netlist.specs.Cells.{dram_cell};
ghost use Rattle.sp_netlist.specs.Parts.{NoCell};
ghost use Rattle.sp_netlist.specs.Rules.{dram_name, is_dram};
ghost use Rattle.sp_gates.specs.Grows.{Builds};
ghost use Rattle.sp_frames.specs.Framed.{dram_cells};
ghost use Rattle.sp_frames.specs.Ports.{AreNamed, HasSizes, HaveSizes};

use sp_netlist::{Builder, Cell, NoMemory};
use sp_words::PortDecl;
use std::alloc::Global;

/// The cell of one DRAM, whose number is the next one.
fn add_dram(
    alloc: Global,
    builder: &mut Builder,
    port: &PortDecl,
    dram: u32,
) -> Result<(), NoMemory>
    requires name { IsName (string_bytes port.now.name) }
    requires new_name { Contains (filter_map dram_name builder.old.cells) (string_bytes port.now.name) → ⊥ }
    requires sizes { HasSizes (plain_port port.now) }
    requires number { dram ≡ count_by is_dram builder.old.cells }
    ensures cells { OnOk result (builder.new.cells ≡ builder.old.cells ++ dram_cell dram (string_bytes port.now.name) port.now.ty port.now.dims.items ∷ []) }
    ensures builds { OnOk result (Builds builder.old builder.new []) }
{
    let name = String::from_str(alloc, &port.name)?;
    let dims = Vec::from_slice(alloc, &port.dims)?;
    builder.add(Cell::Dram(dram, name, port.ty, dims))?;
    Ok(())
}

/// A cell for each DRAM, in order, with the numbers from 0 on. No net is promised or driven.
pub fn add_drams(alloc: Global, builder: &mut Builder, drams: &[PortDecl]) -> Result<(), NoMemory>
    requires no_dram { NoCell is_dram builder.old.cells }
    requires named { AreNamed (map plain_port drams.now) }
    requires sizes { HaveSizes (map plain_port drams.now) }
    requires few { length drams.now < 2 ^ 32 }
    ensures cells { OnOk result (builder.new.cells ≡ builder.old.cells ++ dram_cells 0 (map plain_port drams.now)) }
    ensures builds { OnOk result (Builds builder.old builder.new []) }
{
    let mut dram = 0;
    for port in drams {
        add_dram(alloc, builder, port, dram)?;
        dram += 1;
    }
    Ok(())
}
