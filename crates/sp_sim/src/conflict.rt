//! Ports of banks that two enabled taps stand on.
ghost use Rattle.std.specs.Prelude.{◌≡◌, ◌<◌, ◌≤◌, ℕ, length, replicate, slice_index, MatchOption};
ghost use Rattle.std.specs.List.{fold};
ghost use Rattle.sp_netlist.specs.Cells.{plain_cell, plain_cells};
ghost use Rattle.sp_sim.specs.Rows.{word_of};
ghost use Rattle.sp_sim.specs.Conflicts.{bumped, tally, IsFirstShared};

use crate::row::Row;
use sp_netlist::{Cell, Port};

/// One more at a bank, up to 2.
fn bump(counts: &mut [u8], bank: u64)
    ensures { counts.new ≡ bumped counts.old bank }
{
    if bank < counts.len() as u64 {
        let at = bank as usize;
        counts[at] = if counts[at] < 2 { counts[at] + 1 } else { 2 };
    }
}

fn count_read(cell: &Cell, row: &Row, counts: &mut [u8])
    ensures { counts.new ≡ tally (word_of row.now) Port.Read counts.old (plain_cell cell.now) }
{
    if let Cell::ReadTap(_, bank, enable, _) = cell {
        if row.get(*enable) == 1 {
            bump(counts, *bank);
        }
    }
}

fn count_write(cell: &Cell, row: &Row, counts: &mut [u8])
    ensures { counts.new ≡ tally (word_of row.now) Port.Write counts.old (plain_cell cell.now) }
{
    if let Cell::WriteTap(bank, enable, _, _) = cell {
        if row.get(*enable) == 1 {
            bump(counts, *bank);
        }
    }
}

/// Counts the enabled read taps of each bank, up to 2.
fn count_reads(cells: &[Cell], row: &Row, counts: &mut [u8])
    ensures { counts.new ≡ fold (tally (word_of row.now) Port.Read) counts.old (plain_cells cells.now) }
{
    for cell in cells {
        count_read(cell, row, counts);
    }
}

/// Counts the enabled write taps of each bank, up to 2.
fn count_writes(cells: &[Cell], row: &Row, counts: &mut [u8])
    ensures { counts.new ≡ fold (tally (word_of row.now) Port.Write) counts.old (plain_cells cells.now) }
{
    for cell in cells {
        count_write(cell, row, counts);
    }
}

fn clear(counts: &mut [u8])
    ensures { counts.new ≡ replicate (length counts.old) 0 }
{
    for i in 0..counts.len() {
        counts[i] = 0;
    }
}

/// The first bank that has a port with more than one, read before write.
fn first_shared(reads: &[u8], writes: &[u8]) -> Option<(u64, Port)>
    requires { length writes.now ≡ length reads.now }
    ensures { MatchOption result ((b : ℕ) → (slice_index reads.now b ≤ 1) × (slice_index writes.now b ≤ 1)) (λ p. IsFirstShared reads.now writes.now p.0 p.1) }
{
    for bank in 0..reads.len() {
        if reads[bank] > 1 {
            return Some((bank as u64, Port::Read));
        }
        if writes[bank] > 1 {
            return Some((bank as u64, Port::Write));
        }
    }
    None
}

/// Counts from nothing, and tells the first bank that has a port with more than one enabled tap.
pub(crate) fn conflict(
    read_taps: &[Cell],
    write_taps: &[Cell],
    row: &Row,
    reads: &mut [u8],
    writes: &mut [u8],
) -> Option<(u64, Port)>
    requires { length writes.old ≡ length reads.old }
    ensures reads { reads.new ≡ fold (tally (word_of row.now) Port.Read) (replicate (length reads.old) 0) (plain_cells read_taps.now) }
    ensures writes { writes.new ≡ fold (tally (word_of row.now) Port.Write) (replicate (length reads.old) 0) (plain_cells write_taps.now) }
    ensures first { MatchOption result ((b : ℕ) → (slice_index reads.new b ≤ 1) × (slice_index writes.new b ≤ 1)) (λ p. IsFirstShared reads.new writes.new p.0 p.1) }
{
    clear(reads);
    clear(writes);
    count_reads(read_taps, row, reads);
    count_writes(write_taps, row, writes);
    first_shared(reads, writes)
}
