//! The signals that a dump shows.
ghost use Rattle.std.specs.Prelude.{◌≡◌, ◌++◌, ◌∷◌, [], map, flat_map, IfOk, OnOk, string_bytes};
ghost use Rattle.sp_netlist.specs.Cells.{plain_cell, plain_cells};
ghost use Rattle.sp_waves.specs.Signals.{plain_signal, signal, channel_name, channel_signals, port_signals, net_signal, signals_of, nets_of, argument_name, output_name, net_name};

use crate::NoMemory;
use sp_netlist::{Cell, NetId};
use sp_verilog::NetLine;
use std::alloc::Global;

/// A net that is shown under a name, with its width in bits.
#[derive(Drop)]
pub(crate) struct Signal {
    pub(crate) name: String,
    pub(crate) width: u8,
    pub(crate) net: NetId,
}

/// Adds a signal.
fn push(signals: &mut Vec<Signal>, name: String, width: u8, net: NetId) -> Result<(), NoMemory>
    ensures { OnOk result (map plain_signal signals.new.items ≡ map plain_signal signals.old.items ++ signal (string_bytes name) width net ∷ []) }
{
    signals.push(Signal { name, width, net })?;
    Ok(())
}

#[tactic(auto, unfolding(crate::specs::Signals::channel_name))]
fn name_in_channel(alloc: Global, channel: u64, part: &str) -> Result<String, NoMemory>
    ensures { IfOk result (λ name. string_bytes name ≡ channel_name channel part.now) }
{
    format!(in alloc; "c{channel}_{part}")
}

#[tactic(auto, unfolding(crate::specs::Signals::argument_name))]
pub(crate) fn name_of_argument(alloc: Global, name: &str) -> Result<String, NoMemory>
    ensures { IfOk result (λ text. string_bytes text ≡ argument_name name.now) }
{
    format!(in alloc; "in_{name}")
}

#[tactic(auto, unfolding(crate::specs::Signals::output_name))]
pub(crate) fn name_of_output(alloc: Global, name: &str) -> Result<String, NoMemory>
    ensures { IfOk result (λ text. string_bytes text ≡ output_name name.now) }
{
    format!(in alloc; "out_{name}")
}

#[tactic(auto, unfolding(crate::specs::Signals::net_name))]
fn name_of_net(alloc: Global, net: u64) -> Result<String, NoMemory>
    ensures { IfOk result (λ name. string_bytes name ≡ net_name net) }
{
    format!(in alloc; "n{net}")
}

/// Adds the handshake of a channel.
fn push_channel(
    alloc: Global,
    signals: &mut Vec<Signal>,
    channel: u64,
    ready: NetId,
    request: NetId,
    last: NetId,
) -> Result<(), NoMemory>
    ensures { OnOk result (map plain_signal signals.new.items ≡ map plain_signal signals.old.items ++ channel_signals channel ready request last) }
{
    push(signals, name_in_channel(alloc, channel, "ready")?, 1, ready)?;
    push(signals, name_in_channel(alloc, channel, "req")?, 1, request)?;
    push(signals, name_in_channel(alloc, channel, "last")?, 1, last)
}

/// Adds the ports of a cell.
fn push_ports(alloc: Global, signals: &mut Vec<Signal>, cell: &Cell) -> Result<(), NoMemory>
    ensures { OnOk result (map plain_signal signals.new.items ≡ map plain_signal signals.old.items ++ port_signals (plain_cell cell.now)) }
{
    match cell {
        Cell::In(name, net, ty) => push(signals, name_of_argument(alloc, name)?, ty.width(), *net),
        Cell::Out(name, net, ty) => push(signals, name_of_output(alloc, name)?, ty.width(), *net),
        Cell::Done(net) => push(signals, String::from_str(alloc, "done")?, 1, *net),
        Cell::LoadUnit(channel, _, ready, _, request, last, _)
        | Cell::StoreUnit(channel, _, ready, request, last, _, _) => {
            push_channel(alloc, signals, *channel, *ready, *request, *last)
        }
        _ => Ok(()),
    }
}

/// Adds the ports of all cells.
fn push_all_ports(alloc: Global, signals: &mut Vec<Signal>, cells: &[Cell]) -> Result<(), NoMemory>
    ensures { OnOk result (map plain_signal signals.new.items ≡ map plain_signal signals.old.items ++ flat_map port_signals (plain_cells cells.now)) }
{
    for cell in cells {
        push_ports(alloc, signals, cell)?;
    }
    Ok(())
}

/// Adds a net under its own name.
fn push_net(alloc: Global, signals: &mut Vec<Signal>, line: &NetLine) -> Result<(), NoMemory>
    ensures { OnOk result (map plain_signal signals.new.items ≡ map plain_signal signals.old.items ++ net_signal line.now ∷ []) }
{
    push(
        signals,
        name_of_net(alloc, line.net)?,
        line.width,
        NetId::new(line.net),
    )
}

/// Adds the nets.
fn push_nets(alloc: Global, signals: &mut Vec<Signal>, nets: &[NetLine]) -> Result<(), NoMemory>
    ensures { OnOk result (map plain_signal signals.new.items ≡ map plain_signal signals.old.items ++ map net_signal nets.now) }
{
    for line in nets {
        push_net(alloc, signals, line)?;
    }
    Ok(())
}

/// The signals of a netlist: its ports in the order of the cells, and then its nets as they are listed.
pub(crate) fn signals(
    alloc: Global,
    cells: &[Cell],
    nets: &[NetLine],
) -> Result<Vec<Signal>, NoMemory>
    ensures { IfOk result (λ signals. map plain_signal signals.items ≡ signals_of (plain_cells cells.now) nets.now) }
{
    let mut signals = Vec::new(alloc);
    push_all_ports(alloc, &mut signals, cells)?;
    push_nets(alloc, &mut signals, nets)?;
    Ok(signals)
}

/// The nets that signals show, in order.
pub(crate) fn shown_nets(alloc: Global, signals: &[Signal]) -> Result<Vec<NetId>, NoMemory>
    ensures { IfOk result (λ nets. nets.items ≡ nets_of (map plain_signal signals.now)) }
{
    let mut nets = Vec::new(alloc);
    for signal in signals {
        nets.push(signal.net)?;
    }
    Ok(nets)
}
