//! The dump of a run.
ghost use Rattle.std.specs.Prelude.{◌≡◌, ◌+◌, ◌-◌, ◌^◌, ◌<◌, true, List, [], None, map, IfOk, OnOk, string_bytes};
ghost use Rattle.sp_verilog.specs.Text.{AreNets};
ghost use Rattle.sp_verilog.specs.declared.nets.NetLine.{NetLine};
ghost use Rattle.sp_waves.specs.Dump.{IsDump, IsLast, Shows, ShowsNext, ShowsText};
ghost use Rattle.sp_waves.specs.Signals.{plain_signal, signals_of, nets_of};

use crate::NoMemory;
use crate::change::{push_first_cycle, push_later_cycle, push_time};
use crate::header::push_header;
use crate::signal::{Signal, shown_nets, signals};
use sp_netlist::{NetId, Netlist, one_run, quiet_run};
use sp_sim::Sim;
use sp_verilog::wires;
use std::alloc::Global;

/// What is shown of a run.
#[derive(Drop)]
struct Shown {
    signals: Vec<Signal>,
    nets: Vec<NetId>,
}

/// The signals of a netlist, with their nets.
fn all_shown(alloc: Global, netlist: &Netlist) -> Result<Shown, NoMemory>
    ensures signals { IfOk result (λ shown. (nets : List NetLine) × AreNets netlist.now nets × (map plain_signal shown.signals.items ≡ signals_of netlist.now nets)) }
    ensures nets { IfOk result (λ shown. shown.nets.items ≡ nets_of (map plain_signal shown.signals.items)) }
{
    let wires = wires(alloc, netlist)?;
    let signals = signals(alloc, netlist.cells(), &wires)?;
    let nets = shown_nets(alloc, &signals)?;
    Ok(Shown { signals, nets })
}

/// Appends the header and the first cycle, in which the simulation stands, and keeps its words.
fn push_first(
    alloc: Global,
    netlist: &Netlist,
    sim: &mut Sim<'_>,
    shown: &Shown,
    text: &mut String,
    words: &mut Vec<u64>,
) -> Result<(), NoMemory>
    requires first { sim.old.cycle ≡ 0 }
    requires cells { sim.old.setting.cells ≡ netlist.now }
    requires nets { shown.now.nets.items ≡ nets_of (map plain_signal shown.now.signals.items) }
    requires empty { string_bytes text.old ≡ [] }
    ensures stays { sim.new ≡ sim.old }
    ensures shows { OnOk result (Shows sim.old.setting (map plain_signal shown.now.signals.items) 0 (string_bytes text.new) words.new.items) }
{
    push_header(alloc, text, netlist.cells(), &shown.signals)?;
    sim.watch(&shown.nets, words)?;
    push_first_cycle(text, &shown.signals, words)
}

/// Goes on to the next cycle and appends it, or tells that the run doesn't go on.
fn push_next(
    sim: &mut Sim<'_>,
    shown: &Shown,
    text: &mut String,
    words: &mut Vec<u64>,
    next: &mut Vec<u64>,
) -> Result<bool, NoMemory>
    requires goes_on { sim.old.ended ≡ None }
    requires room { sim.old.cycle < 2 ^ 64 - 1 }
    requires nets { shown.now.nets.items ≡ nets_of (map plain_signal shown.now.signals.items) }
    requires shows { Shows sim.old.setting (map plain_signal shown.now.signals.items) sim.old.cycle (string_bytes text.old) words.old.items }
    ensures next { IfOk result (λ went_on. ShowsNext sim.old.setting (map plain_signal shown.now.signals.items) sim.old.cycle (string_bytes text.old) went_on (string_bytes text.new) words.new.items) }
    ensures sim { IfOk result (λ went_on. went_on ≡ true → sim.new ≡ record { setting = sim.old.setting; cycle = sim.old.cycle + 1; ended = None }) }
{
    if sim.step().is_some() {
        return Ok(false);
    }
    sim.watch(&shown.nets, next)?;
    push_later_cycle(text, &shown.signals, sim.cycle(), words, next)?;
    std::mem::swap(words, next);
    Ok(true)
}

/// Appends the cycles after the first, up to the last one that is shown, whose number comes back.
fn push_later(
    alloc: Global,
    sim: &mut Sim<'_>,
    shown: &Shown,
    text: &mut String,
    words: &mut Vec<u64>,
    cycles: u64,
) -> Result<u64, NoMemory>
    requires first { sim.old.cycle ≡ 0 }
    requires goes_on { sim.old.ended ≡ None }
    requires nets { shown.now.nets.items ≡ nets_of (map plain_signal shown.now.signals.items) }
    requires shows { Shows sim.old.setting (map plain_signal shown.now.signals.items) 0 (string_bytes text.old) words.old.items }
    ensures last { IfOk result (λ last. IsLast sim.old.setting cycles last) }
    ensures shows { IfOk result (λ last. ShowsText sim.old.setting (map plain_signal shown.now.signals.items) last (string_bytes text.new)) }
{
    let mut next = Vec::new(alloc);
    for cycle in 0..cycles {
        if !push_next(sim, shown, text, words, &mut next)? {
            return Ok(cycle);
        }
    }
    Ok(cycles)
}

/// The value change dump of a run (IEEE 1364-2005, clause 18), from cycle 0 to the cycle in which it is done or has a
/// conflict, or to that number of cycles. It shows a clock, the ports, the handshakes of the channels and all nets;
/// cycle `t` begins at `10 t` ns. Two dumps of one run are the same bytes.
pub fn waves(
    alloc: Global,
    netlist: &Netlist,
    sim: &mut Sim<'_>,
    cycles: u64,
) -> Result<String, NoMemory>
    requires cells { sim.old.setting.cells ≡ netlist.now }
    requires first { sim.old.cycle ≡ 0 }
    requires goes_on { sim.old.ended ≡ None }
    ensures { IfOk result (λ text. IsDump sim.old.setting cycles (string_bytes text)) }
{
    one_run();
    quiet_run();
    let _cells = netlist.cells();
    let shown = all_shown(alloc, netlist)?;
    let mut text = String::new(alloc);
    let mut words = Vec::new(alloc);
    push_first(alloc, netlist, sim, &shown, &mut text, &mut words)?;
    let last = push_later(alloc, sim, &shown, &mut text, &mut words, cycles)?;
    push_time(&mut text, 10 * u128::from(last) + 10)?;
    Ok(text)
}
