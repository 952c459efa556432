//! The loads of a core, one after the other.
ghost use Rattle.std.specs.Prelude.{◌≡◌, ℕ, true, false, [], ◌∷◌, All, IfOk, OnOk};
ghost use Rattle.sp_netlist.specs.Signals.{Signals};
ghost use Rattle.sp_gates.specs.Grows.{Fills};
ghost use Rattle.sp_gates.specs.Runs.{RunsOn};
ghost use Rattle.sp_core.specs.CoreParts.{plain_core};
ghost use Rattle.sp_op_nets.specs.Reserved.{Rise};
ghost use Rattle.sp_copy_nets.specs.Numbers.{StandNumbers};
ghost use Rattle.sp_access_nets.specs.Laws.{answer_nets};
ghost use Rattle.sp_tree_handed.specs.declared.moves.Direction.TheVariants.{Load, Store};
ghost use Rattle.sp_tree_handed.specs.Moves.{AreMovesStanding, slices_in};
ghost use Rattle.sp_load_units.specs.Units.{UnitsStand, unit_wires, unit_wires_in};
ghost use Rattle.sp_load_units.specs.Walks.{UnitStandsAlone};
ghost use Rattle.sp_lower.specs.LoadsParts.{AddsWrites, AreSlicesStanding, Loading, SliceStands, WriteStands, wires_for};
ghost use Rattle.sp_lower.specs.LoadsRuns.{AreLoadRuns, LoadRun};

use crate::loads_part::part_of;
use crate::loads_write::{has_each_index, write_of};
use sp_access_nets::AccessNets;
use sp_core::Core;
use sp_load_units::TransferUnit;
use sp_netlist::{Builder, NetId, NoMemory};
use sp_tree_handed::{Direction, TreeMove};
use sp_xfer::emit_load_to;
use std::alloc::Global;

/// Emits a load by its unit and its slice. Where it has no index for each dimension of the memory, which happens to no load of a tree
/// that fills an SRAM and isn't proved yet, it answers want of memory.
fn emit_one(
    alloc: Global,
    builder: &mut Builder,
    core: &Core,
    unit: &TransferUnit,
    slice: &TreeMove,
    names: &[Option<NetId>],
) -> Result<AccessNets, NoMemory>
    requires unit { UnitStandsAlone builder.old (plain_core core.now) unit.now }
    requires loads { Loading unit.now }
    requires rise { Rise 0 (unit_wires unit.now) }
    requires slice { SliceStands builder.old (plain_core core.now) unit.now slice.now }
    requires names { StandNumbers builder.old names.now }
    ensures fills { OnOk result (Fills builder.old builder.new (unit_wires unit.now)) }
    ensures stands { IfOk result (WriteStands builder.new (plain_core core.now)) }
    ensures runs { IfOk result (λ a. (s : Signals) → (r : RunsOn s builder.new.cells) → LoadRun (plain_core core.now) r.setting s names.now unit.now slice.now a) }
{
    let part = part_of(alloc, core, unit, slice)?;
    let loaded = emit_load_to(alloc, builder, &part, unit.done)?;
    if !has_each_index(core, unit.transfer.mem, &loaded) {
        return Err(NoMemory);
    }
    let access = write_of(unit, &part, loaded, names)?;
    Ok(access)
}

/// Whether a unit loads.
fn loads(unit: &TransferUnit) -> bool
    ensures load { result ≡ true → Loading unit.now }
    ensures store { result ≡ false → unit.now.transfer.direction ≡ Store }
{
    match unit.transfer.direction {
        Direction::Load => true,
        Direction::Store => false,
    }
}

/// Emits a transfer that loads, and adds its access.
fn emit_if_load(
    alloc: Global,
    builder: &mut Builder,
    core: &Core,
    unit: &TransferUnit,
    slice: &TreeMove,
    names: &[Option<NetId>],
    accesses: &mut Vec<AccessNets>,
) -> Result<(), NoMemory>
    requires unit { UnitStandsAlone builder.old (plain_core core.now) unit.now }
    requires rise { Rise 0 (unit_wires unit.now) }
    requires slice { SliceStands builder.old (plain_core core.now) unit.now slice.now }
    requires names { StandNumbers builder.old names.now }
    ensures { OnOk result (AddsWrites builder.old builder.new (plain_core core.now) names.now (unit.now ∷ []) (slice.now ∷ []) accesses.old.items accesses.new.items) }
{
    if !loads(unit) {
        return Ok(());
    }
    let access = emit_one(alloc, builder, core, unit, slice, names)?;
    accesses.push(access)?;
    Ok(())
}

/// Emits those transfers that load, and adds the access of each.
fn emit_each(
    alloc: Global,
    builder: &mut Builder,
    core: &Core,
    units: &[TransferUnit],
    slices: &[TreeMove],
    names: &[Option<NetId>],
    accesses: &mut Vec<AccessNets>,
) -> Result<(), NoMemory>
    requires units { All (UnitStandsAlone builder.old (plain_core core.now)) units.now }
    requires rise { Rise 0 (unit_wires_in units.now) }
    requires slices { AreSlicesStanding builder.old (plain_core core.now) units.now slices.now }
    requires names { StandNumbers builder.old names.now }
    ensures { OnOk result (AddsWrites builder.old builder.new (plain_core core.now) names.now units.now slices.now accesses.old.items accesses.new.items) }
{
    let [unit, later @ ..] = units else {
        return Ok(());
    };
    let [slice, rest @ ..] = slices else {
        return Ok(());
    };
    emit_if_load(alloc, builder, core, unit, slice, names, accesses)?;
    emit_each(alloc, builder, core, later, rest, names, accesses)?;
    Ok(())
}

/// Emits the loads among the transfers of a core's tree behind it, each by its unit and by what the tree hands on of it, and gives their writes as
/// accesses of their memories, in the order of the tree. Stores are passed. `names` has by the number of each transfer the net with the number of the copy that it
/// writes: without one that is copy 0. Where a load has no index for each dimension of its memory, which happens to no load that fills an
/// SRAM and isn't proved yet, it answers want of memory.
pub fn emit_loads(
    alloc: Global,
    builder: &mut Builder,
    core: &Core,
    units: &[TransferUnit],
    slices: &[TreeMove],
    names: &[Option<NetId>],
) -> Result<Vec<AccessNets>, NoMemory>
    requires units { UnitsStand builder.old (plain_core core.now) units.now }
    requires rise { (from : ℕ) × Rise from (unit_wires_in units.now) }
    requires slices { AreMovesStanding builder.old (slices_in (plain_core core.now).root 0) slices.now }
    requires names { StandNumbers builder.old names.now }
    ensures fills { OnOk result (Fills builder.old builder.new (wires_for Load units.now)) }
    ensures stand { IfOk result (λ accesses. All (WriteStands builder.new (plain_core core.now)) accesses.items) }
    ensures answers { IfOk result (λ accesses. answer_nets accesses.items ≡ []) }
    ensures runs { IfOk result (λ accesses. (s : Signals) → (r : RunsOn s builder.new.cells) → AreLoadRuns (plain_core core.now) r.setting s names.now units.now slices.now accesses.items) }
{
    // (slices are those of a core that keeps its rules, as each does whose root is given)
    let _root = core.root();
    let mut accesses = Vec::new(alloc);
    emit_each(alloc, builder, core, units, slices, names, &mut accesses)?;
    Ok(accesses)
}
