//! One store of a core.
ghost use Rattle.std.specs.Prelude.{◌≡◌, IfOk};
ghost use Rattle.sp_netlist.specs.Signals.{Signals};
ghost use Rattle.sp_gates.specs.Runs.{RunsOn};
ghost use Rattle.sp_words.specs.declared.kind.Kind.TheVariants.{Sram};
ghost use Rattle.sp_core.specs.CoreParts.{plain_core};
ghost use Rattle.sp_core.specs.Declarations.{kind_of};
ghost use Rattle.sp_op_nets.specs.Reserved.{Rise};
ghost use Rattle.sp_copy_nets.specs.Numbers.{StandNumbers};
ghost use Rattle.sp_access_nets.specs.Laws.{net_in};
ghost use Rattle.sp_load_units.specs.Units.{unit_wires};
ghost use Rattle.sp_load_units.specs.Walks.{UnitStandsAlone};
ghost use Rattle.sp_lower.specs.LoadsParts.{SliceStands};
ghost use Rattle.sp_lower.specs.StoresParts.{DrivesAndReserves, ReadStands, Storing};
ghost use Rattle.sp_lower.specs.StoresRuns.{StoreRun};

use crate::stores_part::{memory_width, part_of};
use crate::stores_read::{has_each_index, read_of};
use sp_access_nets::AccessNets;
use sp_core::Core;
use sp_gates::reserve;
use sp_load_units::TransferUnit;
use sp_netlist::{Builder, NetId, NoMemory};
use sp_tree_handed::TreeMove;
use sp_xfer::emit_store_to;
use std::alloc::Global;

/// Emits a store of a core, which reads an SRAM, behind the core's tree, by its unit and by what the tree hands on of it, and gives its read as an access of the
/// SRAM, which is to be answered on a net of its own two cycles later. `names` has by the number of each transfer the net with the number of
/// the copy that it reads: without one that is copy 0. Where the store has no index for each dimension of the SRAM, which happens to no store of
/// a tree and isn't proved yet, it answers want of memory.
pub fn emit_store_of(
    alloc: Global,
    builder: &mut Builder,
    core: &Core,
    unit: &TransferUnit,
    slice: &TreeMove,
    names: &[Option<NetId>],
) -> Result<AccessNets, NoMemory>
    requires unit { UnitStandsAlone builder.old (plain_core core.now) unit.now }
    requires stores { Storing unit.now }
    requires sram { kind_of (plain_core core.now) unit.now.transfer.mem ≡ Sram }
    requires rise { Rise 0 (unit_wires unit.now) }
    requires slice { SliceStands builder.old (plain_core core.now) unit.now slice.now }
    requires names { StandNumbers builder.old names.now }
    ensures drives { IfOk result (λ a. DrivesAndReserves builder.old builder.new (unit_wires unit.now) (net_in a.answer)) }
    ensures stands { IfOk result (ReadStands builder.new (plain_core core.now)) }
    ensures runs { IfOk result (λ a. (s : Signals) → (r : RunsOn s builder.new.cells) → StoreRun (plain_core core.now) r.setting s names.now unit.now slice.now a) }
{
    let width = memory_width(core, unit.transfer.mem);
    let found = reserve(builder, width)?;
    let part = part_of(alloc, core, unit, slice, found, width)?;
    let stored = emit_store_to(alloc, builder, &part, unit.done)?;
    if !has_each_index(core, unit.transfer.mem, &stored) {
        return Err(NoMemory);
    }
    let access = read_of(unit, stored, found, names);
    Ok(access)
}
