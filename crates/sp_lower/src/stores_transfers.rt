//! All transfers of a core.
ghost use Rattle.std.specs.Prelude.{ℕ, All, IfOk};
ghost use Rattle.sp_netlist.specs.Signals.{Signals};
ghost use Rattle.sp_gates.specs.Runs.{RunsOn};
ghost use Rattle.sp_core.specs.CoreParts.{plain_core};
ghost use Rattle.sp_op_nets.specs.Reserved.{Rise};
ghost use Rattle.sp_copy_nets.specs.Numbers.{StandNumbers};
ghost use Rattle.sp_access_nets.specs.Laws.{answer_nets};
ghost use Rattle.sp_tree_handed.specs.Moves.{AreMovesStanding, slices_in};
ghost use Rattle.sp_load_units.specs.Units.{UnitsStand, unit_wires_in};
ghost use Rattle.sp_lower.specs.StoresParts.{DrivesAndReserves, TransferStands};
ghost use Rattle.sp_lower.specs.StoresRuns.{RunTransfers};

use crate::loads_emit::emit_loads;
use crate::stores_stores::emit_stores;
use sp_access_nets::AccessNets;
use sp_core::Core;
use sp_load_units::TransferUnit;
use sp_netlist::{Builder, NetId, NoMemory};
use sp_tree_accesses::append;
use sp_tree_handed::TreeMove;
use std::alloc::Global;

/// Emits the loads and the stores of a core's tree behind it, each by its unit and by what the tree hands on of it, and gives the writes of
/// loads and then the reads of stores as accesses of their memories, each in the order of the tree. `names` has by the number of each transfer
/// the net with the number of the copy that it writes or reads: without one that is copy 0. It answers want of memory where `emit_loads`
/// or `emit_stores` does.
pub fn emit_transfers(
    alloc: Global,
    builder: &mut Builder,
    core: &Core,
    units: &[TransferUnit],
    slices: &[TreeMove],
    names: &[Option<NetId>],
) -> Result<Vec<AccessNets>, NoMemory>
    requires units { UnitsStand builder.old (plain_core core.now) units.now }
    requires rise { (from : ℕ) × Rise from (unit_wires_in units.now) }
    requires slices { AreMovesStanding builder.old (slices_in (plain_core core.now).root 0) slices.now }
    requires names { StandNumbers builder.old names.now }
    ensures drives { IfOk result (λ accesses. DrivesAndReserves builder.old builder.new (unit_wires_in units.now) (answer_nets accesses.items)) }
    ensures stand { IfOk result (λ accesses. All (TransferStands builder.new (plain_core core.now)) accesses.items) }
    ensures runs { IfOk result (λ accesses. (s : Signals) → (r : RunsOn s builder.new.cells) → RunTransfers (plain_core core.now) r.setting s names.now units.now slices.now accesses.items) }
{
    // (stores read SRAMs in a core that keeps its rules, as each does whose root is given)
    let _root = core.root();
    let mut accesses = emit_loads(alloc, builder, core, units, slices, names)?;
    let reads = emit_stores(alloc, builder, core, units, slices, names)?;
    append(&mut accesses, reads)?;
    Ok(accesses)
}
