//! The part of a store.
ghost use Rattle.std.specs.Prelude.{◌≡◌, ◌<◌, ◌≤◌, length, IfOk};
ghost use Rattle.sp_words.specs.Types.{width_of};
ghost use Rattle.sp_core.specs.CoreParts.{plain_core};
ghost use Rattle.sp_core.specs.Declarations.{mem};
ghost use Rattle.sp_load_units.specs.Ports.{direction_of};
ghost use Rattle.sp_load_units.specs.declared.unit.UnitPort.TheVariants.{Stores};
ghost use Rattle.sp_lower.specs.StoresParts.{IsStorePart, Storing};

use crate::loads_part::{dram_dims, moves_of};
use sp_channels::StorePort;
use sp_core::Core;
use sp_load_units::{TransferUnit, UnitPort};
use sp_netlist::{NetId, NoMemory};
use sp_tree_handed::TreeMove;
use sp_xfer::Store;
use std::alloc::Global;

/// How many bits the words of a memory have.
pub(crate) fn memory_width(core: &Core, m: u32) -> u8
    requires { m < length (plain_core core.now).mems }
    ensures value { result ≡ width_of (mem (plain_core core.now) m).ty }
    ensures has_bits { 1 ≤ result }
    ensures in_a_word { result ≤ 64 }
{
    core.mems()[m as usize].ty.width()
}

/// The nets of a unit that stores.
fn store_port(unit: &TransferUnit) -> StorePort
    requires stores { Storing unit.now }
    requires way { direction_of unit.now.port ≡ unit.now.transfer.direction }
    ensures { unit.now.port ≡ Stores result }
{
    match unit.port {
        UnitPort::Stores(port) => port,
        UnitPort::Loads(_) => unreachable!(),
    }
}

/// The part of a store, by its unit, its slice and the net of a reader, of that width.
#[tactic(auto, using(crate::proofs::StoresFitting::moves_taken))]
pub(crate) fn part_of(
    alloc: Global,
    core: &Core,
    unit: &TransferUnit,
    slice: &TreeMove,
    found: NetId,
    width: u8,
) -> Result<Store, NoMemory>
    requires stores { Storing unit.now }
    requires way { direction_of unit.now.port ≡ unit.now.transfer.direction }
    ensures { IfOk result (IsStorePart (plain_core core.now) unit.now slice.now found width) }
{
    let dims = Vec::from_slice(alloc, dram_dims(core, unit.transfer.dram))?;
    let moves = moves_of(alloc, &slice.nets)?;
    Ok(Store {
        start: slice.start,
        port: store_port(unit),
        dims,
        moves,
        found,
        width,
    })
}
