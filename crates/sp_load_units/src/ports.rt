//! The port of a unit.
ghost use Rattle.std.specs.Prelude.{◌≡◌, ◌+◌, ◌<◌, length, count_by, IfOk, OnOk};
ghost use Rattle.sp_netlist.specs.Draft.{IsDraft};
ghost use Rattle.sp_netlist.specs.Rules.{IsWidth, is_dram, is_unit, dram_width};
ghost use Rattle.sp_taps.specs.Wires.{Promises};
ghost use Rattle.sp_frames.specs.Framed.{AddsUnits};
ghost use Rattle.sp_op_nets.specs.Reserved.{Rise};
ghost use Rattle.sp_tree_handed.specs.declared.moves.Direction.TheVariants.{Load, Store};
ghost use Rattle.sp_load_units.specs.Ports.{PortRuns, PortWires, direction_of, port_wires};
ghost use Rattle.sp_load_units.specs.Units.{StoresBehind};

use crate::unit::UnitPort;
use sp_channels::{add_load, add_store};
use sp_dram_words::units_join;
use sp_netlist::{Builder, NoMemory};
use sp_tree_handed::Direction;

/// Adds the next channel, with a unit that loads.
fn add_loading(
    builder: &mut Builder,
    channel: u64,
    dram: u32,
    width: u8,
) -> Result<UnitPort, NoMemory>
    requires draft { IsDraft builder.old }
    requires channel { channel ≡ count_by is_unit builder.old.cells }
    requires dram { dram < count_by is_dram builder.old.cells }
    requires words { dram_width builder.old.cells dram ≡ width }
    requires width { IsWidth width }
    ensures way { IfOk result (λ port. direction_of port ≡ Load) }
    ensures promises { IfOk result (λ port. Promises builder.old builder.new (port_wires port)) }
    ensures rise { IfOk result (λ port. Rise (length builder.old.promised) (port_wires port)) }
    ensures wires { IfOk result (λ port. PortWires builder.new width port) }
    ensures runs { IfOk result (λ port. PortRuns builder.new channel dram width port) }
    ensures one_more { OnOk result (count_by is_unit builder.new.cells ≡ channel + 1) }
    ensures cells { OnOk result (AddsUnits builder.old builder.new) }
    ensures stores { IfOk result (StoresBehind builder.old builder.new dram) }
{
    units_join();
    let port = add_load(builder, channel, dram, width)?;
    Ok(UnitPort::Loads(port))
}

/// Adds the next channel, with a unit that stores.
fn add_storing(
    builder: &mut Builder,
    channel: u64,
    dram: u32,
    width: u8,
) -> Result<UnitPort, NoMemory>
    requires draft { IsDraft builder.old }
    requires channel { channel ≡ count_by is_unit builder.old.cells }
    requires dram { dram < count_by is_dram builder.old.cells }
    requires words { dram_width builder.old.cells dram ≡ width }
    requires width { IsWidth width }
    ensures way { IfOk result (λ port. direction_of port ≡ Store) }
    ensures promises { IfOk result (λ port. Promises builder.old builder.new (port_wires port)) }
    ensures rise { IfOk result (λ port. Rise (length builder.old.promised) (port_wires port)) }
    ensures wires { IfOk result (λ port. PortWires builder.new width port) }
    ensures runs { IfOk result (λ port. PortRuns builder.new channel dram width port) }
    ensures one_more { OnOk result (count_by is_unit builder.new.cells ≡ channel + 1) }
    ensures cells { OnOk result (AddsUnits builder.old builder.new) }
    ensures stores { IfOk result (StoresBehind builder.old builder.new dram) }
{
    units_join();
    let port = add_store(builder, channel, dram, width)?;
    Ok(UnitPort::Stores(port))
}

/// Adds the next channel, with a unit of a direction.
pub(crate) fn add_port(
    builder: &mut Builder,
    direction: Direction,
    channel: u64,
    dram: u32,
    width: u8,
) -> Result<UnitPort, NoMemory>
    requires draft { IsDraft builder.old }
    requires channel { channel ≡ count_by is_unit builder.old.cells }
    requires dram { dram < count_by is_dram builder.old.cells }
    requires words { dram_width builder.old.cells dram ≡ width }
    requires width { IsWidth width }
    ensures way { IfOk result (λ port. direction_of port ≡ direction) }
    ensures promises { IfOk result (λ port. Promises builder.old builder.new (port_wires port)) }
    ensures rise { IfOk result (λ port. Rise (length builder.old.promised) (port_wires port)) }
    ensures wires { IfOk result (λ port. PortWires builder.new width port) }
    ensures runs { IfOk result (λ port. PortRuns builder.new channel dram width port) }
    ensures one_more { OnOk result (count_by is_unit builder.new.cells ≡ channel + 1) }
    ensures cells { OnOk result (AddsUnits builder.old builder.new) }
    ensures stores { IfOk result (StoresBehind builder.old builder.new dram) }
{
    match direction {
        Direction::Load => add_loading(builder, channel, dram, width),
        Direction::Store => add_storing(builder, channel, dram, width),
    }
}
