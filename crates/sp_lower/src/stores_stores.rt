//! The stores of a core, one after the other.
ghost use Rattle.std.specs.Prelude.{◌≡◌, true, false, [], ◌∷◌, All, IfOk, OnOk};
ghost use Rattle.sp_netlist.specs.Signals.{Signals};
ghost use Rattle.sp_gates.specs.Runs.{RunsOn};
ghost use Rattle.sp_core.specs.CoreParts.{plain_core};
ghost use Rattle.sp_op_nets.specs.Reserved.{Rise};
ghost use Rattle.sp_copy_nets.specs.Numbers.{StandNumbers};
ghost use Rattle.sp_access_nets.specs.Laws.{answer_nets};
ghost use Rattle.sp_load_units.specs.Units.{unit_wires, unit_wires_in};
ghost use Rattle.sp_lower.specs.LoadsParts.{AreSlicesStanding, Loading, SliceStands};
ghost use Rattle.sp_lower.specs.StoresParts.{AddsReads, DrivesAndReserves, ReadStands, ReadsSram, StoreUnitStands, Storing, store_wires_in};
ghost use Rattle.sp_lower.specs.StoresRuns.{AreStoreRuns};

use crate::stores_emit::emit_store_of;
use sp_access_nets::AccessNets;
use sp_core::Core;
use sp_load_units::TransferUnit;
use sp_netlist::{Builder, NetId, NoMemory};
use sp_tree_handed::{Direction, TreeMove};
use std::alloc::Global;

/// Whether a unit stores.
fn stores(unit: &TransferUnit) -> bool
    ensures store { result ≡ true → Storing unit.now }
    ensures load { result ≡ false → Loading unit.now }
{
    match unit.transfer.direction {
        Direction::Load => false,
        Direction::Store => true,
    }
}

/// Emits a transfer that stores, and adds its access.
fn emit_if_store(
    alloc: Global,
    builder: &mut Builder,
    core: &Core,
    unit: &TransferUnit,
    slice: &TreeMove,
    names: &[Option<NetId>],
    accesses: &mut Vec<AccessNets>,
) -> Result<(), NoMemory>
    requires unit { StoreUnitStands builder.old (plain_core core.now) unit.now }
    requires sram { ReadsSram (plain_core core.now) unit.now }
    requires rise { Rise 0 (unit_wires unit.now) }
    requires slice { SliceStands builder.old (plain_core core.now) unit.now slice.now }
    requires names { StandNumbers builder.old names.now }
    ensures { OnOk result (AddsReads builder.old builder.new (plain_core core.now) names.now (unit.now ∷ []) (slice.now ∷ []) accesses.old.items accesses.new.items) }
{
    if !stores(unit) {
        return Ok(());
    }
    let access = emit_store_of(alloc, builder, core, unit, slice, names)?;
    accesses.push(access)?;
    Ok(())
}

/// Emits those transfers that store, and adds the access of each.
fn emit_each(
    alloc: Global,
    builder: &mut Builder,
    core: &Core,
    units: &[TransferUnit],
    slices: &[TreeMove],
    names: &[Option<NetId>],
    accesses: &mut Vec<AccessNets>,
) -> Result<(), NoMemory>
    requires units { All (StoreUnitStands builder.old (plain_core core.now)) units.now }
    requires srams { All (ReadsSram (plain_core core.now)) units.now }
    requires rise { Rise 0 (unit_wires_in units.now) }
    requires slices { AreSlicesStanding builder.old (plain_core core.now) units.now slices.now }
    requires names { StandNumbers builder.old names.now }
    ensures { OnOk result (AddsReads builder.old builder.new (plain_core core.now) names.now units.now slices.now accesses.old.items accesses.new.items) }
{
    let [unit, later @ ..] = units else {
        return Ok(());
    };
    let [slice, rest @ ..] = slices else {
        return Ok(());
    };
    emit_if_store(alloc, builder, core, unit, slice, names, accesses)?;
    emit_each(alloc, builder, core, later, rest, names, accesses)?;
    Ok(())
}

/// Emits the stores among a core's transfers, all of SRAMs, as `emit_store_of` does, behind the core's tree and its loads, each by its unit and by what the tree
/// hands on of it, and gives their reads as accesses of their memories, in the order of the transfers. Loads are passed.
pub fn emit_stores(
    alloc: Global,
    builder: &mut Builder,
    core: &Core,
    units: &[TransferUnit],
    slices: &[TreeMove],
    names: &[Option<NetId>],
) -> Result<Vec<AccessNets>, NoMemory>
    requires units { All (StoreUnitStands builder.old (plain_core core.now)) units.now }
    requires srams { All (ReadsSram (plain_core core.now)) units.now }
    requires rise { Rise 0 (unit_wires_in units.now) }
    requires slices { AreSlicesStanding builder.old (plain_core core.now) units.now slices.now }
    requires names { StandNumbers builder.old names.now }
    ensures drives { IfOk result (λ accesses. DrivesAndReserves builder.old builder.new (store_wires_in units.now) (answer_nets accesses.items)) }
    ensures stand { IfOk result (λ accesses. All (ReadStands builder.new (plain_core core.now)) accesses.items) }
    ensures runs { IfOk result (λ accesses. (s : Signals) → (r : RunsOn s builder.new.cells) → AreStoreRuns (plain_core core.now) r.setting s names.now units.now slices.now accesses.items) }
{
    let mut accesses = Vec::new(alloc);
    emit_each(alloc, builder, core, units, slices, names, &mut accesses)?;
    Ok(accesses)
}
