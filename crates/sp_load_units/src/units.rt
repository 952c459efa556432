//! The units of all transfers of a core.
ghost use Rattle.std.specs.Prelude.{◌≡◌, ℕ, ◌++◌, filter, count_by, IfOk, OnOk, length};
ghost use Rattle.sp_netlist.specs.Draft.{IsDraft};
ghost use Rattle.sp_netlist.specs.Rules.{is_bank, is_unit};
ghost use Rattle.sp_taps.specs.Wires.{Promises};
ghost use Rattle.sp_dram_words.specs.Units.{units_in};
ghost use Rattle.sp_frames.specs.Framed.{AddsUnits};
ghost use Rattle.sp_core.specs.CoreParts.{plain_core};
ghost use Rattle.sp_core.specs.Numbering.{node_count};
ghost use Rattle.sp_overlap.specs.Whole.{IsTimed};
ghost use Rattle.sp_op_nets.specs.Reserved.{Rise};
ghost use Rattle.sp_tree_handed.specs.Moves.{HaveEnds};
ghost use Rattle.sp_load_units.specs.Units.{HasDrams, unit_wires_in, UnitsStand, HaveDone, stores_to};

use crate::unit::TransferUnits;
use crate::walk::{Walk, add_node};
use sp_core::Core;
use sp_netlist::{Builder, NoMemory};
use std::alloc::Global;

/// Adds a channel with a unit for each load and each store of a core's tree, in the order of the tree, to a draft that has its DRAMs and no
/// channel yet.
pub fn add_units(
    alloc: Global,
    builder: &mut Builder,
    core: &Core,
) -> Result<TransferUnits, NoMemory>
    requires draft { IsDraft builder.old }
    requires drams { HasDrams (plain_core core.now) builder.old.cells }
    requires no_unit { count_by is_unit builder.old.cells ≡ 0 }
    ensures promises { IfOk result (λ found. Promises builder.old builder.new (unit_wires_in found.units.items)) }
    ensures rise { IfOk result (λ found. Rise (length builder.old.promised) (unit_wires_in found.units.items)) }
    ensures stand { IfOk result (λ found. UnitsStand builder.new (plain_core core.now) found.units.items) }
    ensures done { IfOk result (λ found. HaveDone found.ends.items found.units.items) }
    ensures ends { IfOk result (λ found. IsTimed (plain_core core.now).root → HaveEnds builder.new found.ends.items (plain_core core.now).root 0) }
    ensures end_for_each { IfOk result (λ found. length found.ends.items ≡ node_count (plain_core core.now).root) }
    ensures draft { OnOk result (IsDraft builder.new) }
    ensures cells { OnOk result (AddsUnits builder.old builder.new) }
    ensures stores { IfOk result (λ found. (r : ℕ) → units_in r builder.new.cells ≡ units_in r builder.old.cells ++ stores_to r found.units.items) }
    ensures one_each { IfOk result (λ found. count_by is_unit builder.new.cells ≡ length found.units.items) }
    ensures banks { OnOk result (filter is_bank builder.new.cells ≡ filter is_bank builder.old.cells) }
    ensures bank_count { OnOk result (count_by is_bank builder.new.cells ≡ count_by is_bank builder.old.cells) }
{
    let mut walk = Walk {
        units: Vec::new(alloc),
        ends: Vec::new(alloc),
        number: 0,
    };
    add_node(builder, &mut walk, core, core.root())?;
    Ok(TransferUnits {
        units: walk.units,
        ends: walk.ends,
    })
}
