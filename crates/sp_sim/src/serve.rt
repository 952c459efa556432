//! The channels of loads and stores.
ghost use Rattle.std.specs.Prelude.{◌≡◌, ◌+◌, ◌&&◌, nat_lt, if◌then◌else◌, length, map, slice_index, slice_index_or, slice_set};
ghost use Rattle.std.specs.List.{fold};
ghost use Rattle.sp_netlist.specs.Cells.{plain_cell, plain_cells};
ghost use Rattle.sp_netlist.specs.Signals as signals;
ghost use Rattle.sp_sim.specs.Rows.{word_of};
ghost use Rattle.sp_sim.specs.Phases.{plain_phase};
ghost use Rattle.sp_sim.specs.Serving as serving;

use crate::phase::{Phase, asks, next_phase, phase_of};
use crate::row::Row;
use sp_netlist::Cell;

/// The next delay, and 0 past the end.
fn next_delay(delays: &[u32], taken: usize) -> u32
    ensures { result ≡ slice_index delays.now taken }
{
    if taken < delays.len() {
        delays[taken]
    } else {
        0
    }
}

/// The channel goes on to its phase in the next cycle.
#[tactic(auto, unfolding(crate::specs::Phases::phase_at))]
fn move_channel(phases: &mut [Phase], channel: u64, request: u64, last: u64, delay: u32)
    ensures { map plain_phase phases.new ≡ slice_set (map plain_phase phases.old) channel (signals.next_phase (slice_index_or (map plain_phase phases.old) channel signals.idle) request last delay) }
{
    let phase = next_phase(phase_of(phases, channel), request, last, delay);
    if channel < phases.len() as u64 {
        phases[channel as usize] = phase;
    }
}

/// How many delays are taken after a channel that may ask.
fn taken_after(delays: &[u32], taken: usize, asks: bool) -> usize
    ensures { result ≡ (if asks && nat_lt taken (length delays.now) then taken + 1 else taken) }
{
    if asks && taken < delays.len() {
        taken + 1
    } else {
        taken
    }
}

/// One channel, at its words of REQ and LAST. What comes back is how many delays were taken by then.
#[tactic(auto, unfolding(crate::specs::Phases::phase_at))]
fn serve_channel(
    phases: &mut [Phase],
    delays: &[u32],
    taken: usize,
    channel: u64,
    request: u64,
    last: u64,
) -> usize
    ensures { record { phases = map plain_phase phases.new; taken = result } ≡ serving.served delays.now (record { phases = map plain_phase phases.old; taken = taken }) channel request last }
{
    let asking = asks(phase_of(phases, channel), request, last);
    move_channel(phases, channel, request, last, next_delay(delays, taken));
    taken_after(delays, taken, asking)
}

fn serve_cell(cell: &Cell, row: &Row, phases: &mut [Phase], delays: &[u32], taken: usize) -> usize
    ensures { record { phases = map plain_phase phases.new; taken = result } ≡ serving.serve_one (word_of row.now) delays.now (record { phases = map plain_phase phases.old; taken = taken }) (plain_cell cell.now) }
{
    match cell {
        Cell::LoadUnit(channel, _, _, _, request, last, _)
        | Cell::StoreUnit(channel, _, _, request, last, _, _) => {
            let request = row.get(*request);
            let last = row.get(*last);
            serve_channel(phases, delays, taken, *channel, request, last)
        }
        _ => taken,
    }
}

/// The channels ask, wait and move words, in the order of their cells. What comes back is how many
/// delays were taken by then.
pub(crate) fn serve(
    cells: &[Cell],
    row: &Row,
    phases: &mut [Phase],
    delays: &[u32],
    taken: usize,
) -> usize
    ensures { record { phases = map plain_phase phases.new; taken = result } ≡ fold (serving.serve_one (word_of row.now) delays.now) (record { phases = map plain_phase phases.old; taken = taken }) (plain_cells cells.now) }
{
    let mut taken = taken;
    for cell in cells {
        taken = serve_cell(cell, row, phases, delays, taken);
    }
    taken
}
