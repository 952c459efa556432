//! The arguments of a netlist, which stand before all else.
ghost use Rattle.std.specs.Prelude.{◌≡◌, ℕ, ◌<◌, ◌++◌, ◌∷◌, [], length, map, filter_map, slice_index, Contains, string_bytes, IfOk, OnOk};
ghost use Rattle.sp_words.specs.Names.{IsName};
ghost use Rattle.sp_words.specs.Ports.{plain_port};
ghost use Rattle.sp_words.specs.Types.{width_of};
ghost use Rattle.sp_netlist.specs.Cells.{in_cell};
ghost use Rattle.sp_netlist.specs.Draft.{IsDraft};
ghost use Rattle.sp_netlist.specs.Ports.{ports_of};
ghost use Rattle.sp_netlist.specs.Rules.{in_name};
ghost use Rattle.sp_netlist.specs.Signals.{Signals};
ghost use Rattle.sp_gates.specs.Grows.{Builds};
ghost use Rattle.sp_gates.specs.Nets.{HasNet, IsOpen};
ghost use Rattle.sp_gates.specs.Runs.{RunsOn};
ghost use Rattle.sp_frames.specs.Framed.{in_cells};
ghost use Rattle.sp_frames.specs.Ports.{AreNamed, HaveNoDims, HaveNets};

use sp_netlist::{Builder, Cell, NetId, NoMemory};
use sp_words::PortDecl;
use std::alloc::Global;

/// The cell of one argument, on a net of its own.
fn add_input(alloc: Global, builder: &mut Builder, port: &PortDecl) -> Result<NetId, NoMemory>
    requires name { IsName (string_bytes port.now.name) }
    requires new_name { Contains (filter_map in_name builder.old.cells) (string_bytes port.now.name) → ⊥ }
    ensures cells { IfOk result (λ net. builder.new.cells ≡ builder.old.cells ++ in_cell (string_bytes port.now.name) net port.now.ty ∷ []) }
    ensures builds { OnOk result (Builds builder.old builder.new []) }
    ensures net { IfOk result (λ net. HasNet builder.new net (width_of port.now.ty)) }
{
    let name = String::from_str(alloc, &port.name)?;
    let net = builder.promise(port.ty.width(), true)?;
    builder.add(Cell::In(name, net, port.ty))?;
    Ok(net)
}

/// A cell for each argument, in order, each on a net of its own, whose word is the argument's in each cycle.
pub fn add_inputs(
    alloc: Global,
    builder: &mut Builder,
    args: &[PortDecl],
) -> Result<Vec<NetId>, NoMemory>
    requires no_nets { builder.old.promised ≡ [] }
    requires no_cells { builder.old.cells ≡ [] }
    requires named { AreNamed (map plain_port args.now) }
    ensures cells { IfOk result (λ nets. builder.new.cells ≡ in_cells (map plain_port args.now) nets.items) }
    ensures nets { IfOk result (λ nets. HaveNets builder.new (map plain_port args.now) nets.items) }
    ensures net_for_each { IfOk result (λ nets. length nets.items ≡ length args.now) }
    ensures none_open { OnOk result ((net : ℕ) → IsOpen builder.new net → ⊥) }
    ensures draft { OnOk result (IsDraft builder.new) }
    ensures ports { OnOk result (HaveNoDims (map plain_port args.now) → ports_of builder.new.cells ≡ record { args = map plain_port args.now; outs = []; drams = [] }) }
    ensures words { IfOk result (λ nets. (s : Signals) (r : RunsOn s builder.new.cells) (t i : ℕ) → i < length nets.items → s.net t (slice_index nets.items i) ≡ slice_index r.setting.args i) }
{
    let mut nets = Vec::new(alloc);
    for port in args {
        let net = add_input(alloc, builder, port)?;
        nets.push(net)?;
    }
    Ok(nets)
}
