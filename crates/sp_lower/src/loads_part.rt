//! The part of a load.
ghost use Rattle.std.specs.Prelude.{◌≡◌, map, IfOk};
ghost use Rattle.sp_core.specs.CoreParts.{plain_core};
ghost use Rattle.sp_core.specs.Declarations.{dram};
ghost use Rattle.sp_transfer_runs.specs.Words.{move_of};
ghost use Rattle.sp_bound_nets.specs.Spans.{net_of_span};
ghost use Rattle.sp_load_units.specs.Ports.{direction_of};
ghost use Rattle.sp_load_units.specs.declared.unit.UnitPort.TheVariants.{Loads};
ghost use Rattle.sp_lower.specs.LoadsParts.{IsPartOf, Loading};

use sp_bound_nets::SpanNet;
use sp_channels::LoadPort;
use sp_core::Core;
use sp_load_units::{TransferUnit, UnitPort};
use sp_netlist::NoMemory;
use sp_slices::Move;
use sp_tree_handed::TreeMove;
use sp_xfer::Load;
use std::alloc::Global;

/// The dimensions of a DRAM.
pub fn dram_dims(core: &Core, r: u32) -> &[u32]
    ensures { result.now ≡ (dram (plain_core core.now) r).dims }
{
    match core.ports().drams.get(r as usize) {
        Some(port) => &port.dims,
        None => &[],
    }
}

/// What a slice takes of a dimension, by the nets of its ends.
fn move_of(net: SpanNet) -> Move
    ensures { result ≡ move_of (net_of_span net) }
{
    match net {
        SpanNet::One(index) => Move::One(index),
        SpanNet::Range(from, until) => Move::Range(from, until),
    }
}

/// What a slice takes of each dimension.
pub fn moves_of(alloc: Global, nets: &[SpanNet]) -> Result<Vec<Move>, NoMemory>
    ensures { IfOk result (λ moves. moves.items ≡ map (λ net. move_of (net_of_span net)) nets.now) }
{
    nets.iter().map(|net| move_of(*net)).collect(alloc)
}

/// The nets of a unit that loads.
fn load_port(unit: &TransferUnit) -> LoadPort
    requires loads { Loading unit.now }
    requires way { direction_of unit.now.port ≡ unit.now.transfer.direction }
    ensures { unit.now.port ≡ Loads result }
{
    match unit.port {
        UnitPort::Loads(port) => port,
        UnitPort::Stores(_) => unreachable!(),
    }
}

/// The part of a load, by its unit and its slice.
#[tactic(auto, using(crate::proofs::LoadsFitting::moves_are))]
pub(crate) fn part_of(
    alloc: Global,
    core: &Core,
    unit: &TransferUnit,
    slice: &TreeMove,
) -> Result<Load, NoMemory>
    requires loads { Loading unit.now }
    requires way { direction_of unit.now.port ≡ unit.now.transfer.direction }
    ensures { IfOk result (IsPartOf (plain_core core.now) unit.now slice.now) }
{
    let dims = Vec::from_slice(alloc, dram_dims(core, unit.transfer.dram))?;
    let moves = moves_of(alloc, &slice.nets)?;
    Ok(Load {
        start: slice.start,
        port: load_port(unit),
        dims,
        moves,
    })
}
