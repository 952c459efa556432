//! The outputs and the end of a netlist, which stand behind all else.
ghost use Rattle.std.specs.Prelude.{◌≡◌, ℕ, ◌++◌, ◌∷◌, [], map, filter_map, Contains, string_bytes, IfOk, OnOk};
ghost use Rattle.sp_words.specs.Names.{IsName};
ghost use Rattle.sp_words.specs.Ports.{plain_port};
ghost use Rattle.sp_words.specs.Types.{width_of};
ghost use Rattle.sp_netlist.specs.Cells.{out_cell, done_cell};
ghost use Rattle.sp_netlist.specs.Draft.{driver_count};
ghost use Rattle.sp_netlist.specs.Parts.{NoCell};
ghost use Rattle.sp_netlist.specs.Rules.{IsNetlist, is_done, out_name};
ghost use Rattle.sp_gates.specs.Grows.{Builds};
ghost use Rattle.sp_gates.specs.Nets.{HasNet, IsOpen};
ghost use Rattle.sp_frames.specs.Framed.{out_cells};
ghost use Rattle.sp_frames.specs.Ports.{AreNamed, HaveNets};

use sp_netlist::{Builder, Cell, NetId, Netlist, NoMemory};
use sp_words::PortDecl;
use std::alloc::Global;

/// The cell of one output.
fn add_output(
    alloc: Global,
    builder: &mut Builder,
    port: &PortDecl,
    net: NetId,
) -> Result<(), NoMemory>
    requires name { IsName (string_bytes port.now.name) }
    requires new_name { Contains (filter_map out_name builder.old.cells) (string_bytes port.now.name) → ⊥ }
    requires net { HasNet builder.old net (width_of port.now.ty) }
    ensures cells { OnOk result (builder.new.cells ≡ builder.old.cells ++ out_cell (string_bytes port.now.name) net port.now.ty ∷ []) }
    ensures builds { OnOk result (Builds builder.old builder.new []) }
    ensures same_nets { builder.new.promised ≡ builder.old.promised }
    ensures drivers { OnOk result ((n : ℕ) → driver_count builder.new.cells n ≡ driver_count builder.old.cells n) }
{
    let name = String::from_str(alloc, &port.name)?;
    builder.add(Cell::Out(name, net, port.ty))?;
    Ok(())
}

/// A cell for each output, in order, on the net of its number. No net is promised or driven.
pub fn add_outputs(
    alloc: Global,
    builder: &mut Builder,
    outs: &[PortDecl],
    nets: &[NetId],
) -> Result<(), NoMemory>
    requires no_output { filter_map out_name builder.old.cells ≡ [] }
    requires named { AreNamed (map plain_port outs.now) }
    requires nets { HaveNets builder.old (map plain_port outs.now) nets.now }
    ensures cells { OnOk result (builder.new.cells ≡ builder.old.cells ++ out_cells (map plain_port outs.now) nets.now) }
    ensures builds { OnOk result (Builds builder.old builder.new []) }
    ensures same_nets { builder.new.promised ≡ builder.old.promised }
    ensures drivers { OnOk result ((n : ℕ) → driver_count builder.new.cells n ≡ driver_count builder.old.cells n) }
{
    for (port, net) in outs.iter().zip(nets) {
        add_output(alloc, builder, port, *net)?;
    }
    Ok(())
}

/// The netlist of the builder's cells, the outputs' and the end, which is over where the net `done` is 1.
pub fn close_frame(
    alloc: Global,
    mut builder: Builder,
    outs: &[PortDecl],
    nets: &[NetId],
    done: NetId,
) -> Result<Netlist, NoMemory>
    requires none_open { (net : ℕ) → IsOpen builder net → ⊥ }
    requires no_end { NoCell is_done builder.cells }
    requires no_output { filter_map out_name builder.cells ≡ [] }
    requires named { AreNamed (map plain_port outs.now) }
    requires nets { HaveNets builder (map plain_port outs.now) nets.now }
    requires done { HasNet builder done 1 }
    ensures cells { IfOk result (λ netlist. netlist ≡ builder.cells ++ out_cells (map plain_port outs.now) nets.now ++ done_cell done ∷ []) }
    ensures netlist { IfOk result (λ netlist. IsNetlist netlist) }
{
    add_outputs(alloc, &mut builder, outs, nets)?;
    builder.add(Cell::Done(done))?;
    builder.finish(alloc)
}
