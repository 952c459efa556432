//! What is kept of the nets for the next cycle.
ghost use Rattle.std.specs.Prelude.{◌≡◌, ◌==◌, if◌then◌else◌};
ghost use Rattle.std.specs.List.{fold};
ghost use Rattle.sp_netlist.specs.Cells.{plain_cell, plain_cells};
ghost use Rattle.sp_netlist.specs.Signals as signals;
ghost use Rattle.sp_sim.specs.Rows.{word_of};
ghost use Rattle.sp_sim.specs.Memories.{word_at};
ghost use Rattle.sp_sim.specs.Phases.{phase_at};
ghost use Rattle.sp_sim.specs.Holding.{held, put_all};

use crate::memory::{Memory, read_at};
use crate::phase::{Phase, phase_of, ready_word};
use crate::row::Row;
use sp_netlist::{Cell, NetId};

/// The word where `enable` is 1, and else that of the net.
fn taken(row: &Row, enable: NetId, word: u64, net: NetId) -> u64
    ensures { result ≡ (if word_of row.now enable == 1 then word else word_of row.now net) }
{
    let kept = row.get(net);
    if row.get(enable) == 1 { word } else { kept }
}

/// The word of READY of a channel.
fn ready_of(phases: &[Phase], channel: u64) -> u64
    ensures { result ≡ signals.ready_word (phase_at phases.now channel) }
{
    ready_word(phase_of(phases, channel))
}

/// Puts the words that a cell keeps into the next row.
fn hold_cell(
    cell: &Cell,
    row: &Row,
    banks: &[Memory],
    drams: &[Memory],
    phases: &[Phase],
    next: &mut Row,
)
    ensures { next.new ≡ put_all next.old (held (word_of row.now) (word_at banks.now) (word_at drams.now) (phase_at phases.now) (plain_cell cell.now)) }
{
    match cell {
        Cell::In(_, net, _) | Cell::Const(net, _, _) => next.put(*net, row.get(*net)),
        Cell::Hold(net, _, _, from, enable) => {
            next.put(*net, taken(row, *enable, row.get(*from), *net));
        }
        Cell::ReadTap(net, bank, enable, addr) => {
            let word = read_at(banks, *bank, row.get(*addr));
            next.put(*net, taken(row, *enable, word, *net));
        }
        Cell::LoadUnit(channel, dram, ready, net, _, _, addr) => {
            next.put(*ready, ready_of(phases, *channel));
            let word = read_at(drams, u64::from(*dram), row.get(*addr));
            next.put(*net, taken(row, *ready, word, *net));
        }
        Cell::StoreUnit(channel, _, ready, _, _, _, _) => {
            next.put(*ready, ready_of(phases, *channel));
        }
        _ => {}
    }
}

/// Puts the words that the cells keep into the next row. The phases are those of the next cycle.
pub(crate) fn hold(
    cells: &[Cell],
    row: &Row,
    banks: &[Memory],
    drams: &[Memory],
    phases: &[Phase],
    next: &mut Row,
)
    ensures { next.new ≡ fold (λ r x. put_all r (held (word_of row.now) (word_at banks.now) (word_at drams.now) (phase_at phases.now) x)) next.old (plain_cells cells.now) }
{
    for cell in cells {
        hold_cell(cell, row, banks, drams, phases, next);
    }
}
