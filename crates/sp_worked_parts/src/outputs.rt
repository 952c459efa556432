//! The outputs of worked netlists, which stand before all else.
ghost use Rattle.std.specs.Prelude.{◌≡◌, ◌∷◌, [], true, IfOk, OnOk, codes, string_bytes};
ghost use Rattle.sp_words.specs.Types.{int_type};
ghost use Rattle.sp_netlist.specs.Cells.{out_cell};
ghost use Rattle.sp_netlist.specs.Draft.{IsDraft};

use sp_netlist::{Builder, Cell, NetId, NoMemory};
use sp_words::Ty;
use std::alloc::Global;

fn first_name(alloc: Global) -> Result<String, NoMemory>
    ensures { IfOk result (λ name. string_bytes name ≡ codes "y") }
{
    String::from_str(alloc, "y")
}

fn second_name(alloc: Global) -> Result<String, NoMemory>
    ensures { IfOk result (λ name. string_bytes name ≡ codes "z") }
{
    String::from_str(alloc, "z")
}

/// An output whose net is to be driven.
pub(crate) fn output(alloc: Global, builder: &mut Builder) -> Result<NetId, NoMemory>
    requires no_nets { builder.old.promised ≡ [] }
    requires no_cells { builder.old.cells ≡ [] }
    ensures net { IfOk result (λ net. net ≡ 0) }
    ensures nets { OnOk result (builder.new.promised ≡ (32, true) ∷ []) }
    ensures cells { OnOk result (builder.new.cells ≡ out_cell (codes "y") 0 int_type ∷ []) }
    ensures draft { OnOk result (IsDraft builder.new) }
{
    let net = builder.promise(32, true)?;
    let name = first_name(alloc)?;
    builder.add(Cell::Out(name, net, Ty::int()))?;
    Ok(net)
}

/// A second one.
pub(crate) fn second_output(alloc: Global, builder: &mut Builder) -> Result<NetId, NoMemory>
    requires nets { builder.old.promised ≡ (32, true) ∷ [] }
    requires cells { builder.old.cells ≡ out_cell (codes "y") 0 int_type ∷ [] }
    ensures net { IfOk result (λ net. net ≡ 1) }
    ensures nets { OnOk result (builder.new.promised ≡ (32, true) ∷ (32, true) ∷ []) }
    ensures cells { OnOk result (builder.new.cells ≡ out_cell (codes "y") 0 int_type ∷ out_cell (codes "z") 1 int_type ∷ []) }
    ensures draft { OnOk result (IsDraft builder.new) }
{
    let net = builder.promise(32, true)?;
    let name = second_name(alloc)?;
    builder.add(Cell::Out(name, net, Ty::int()))?;
    Ok(net)
}
