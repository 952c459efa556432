//! The test of whether a list of cells is a netlist within the limits.
ghost use Rattle.std.specs.Prelude.{◌≡◌, ◌↔◌, ℕ, ◌∷◌, [], ◌-◌, ◌^◌, min, option_map, IfOk, IfErr, OnOk};
ghost use Rattle.sp_netlist.specs.Cells.{plain_cell, plain_cells};
ghost use Rattle.sp_words.specs.Interface.{word_count};
ghost use Rattle.sp_netlist.specs.Rules.{IsNetlist};
ghost use Rattle.sp_netlist.specs.Refusals.{AreLines, bank_words, dram_words, count_over, IsWithinLimits, Refuses};

use crate::cell::Cell;
use crate::error::NetError;
use crate::loops::least_loop;
use crate::netlist::Netlist;
use crate::nets::net_faults;
use std::alloc::Global;

/// The most cells, words of banks and words of DRAMs that a netlist may have.
pub const MAX_CELLS: u64 = 2_000_000;

pub const MAX_BANK_WORDS: u64 = 67_108_864;

pub const MAX_DRAM_WORDS: u64 = 67_108_864;

/// The product, or the type's end where it is greater.
fn capped_size(dims: &[u32]) -> u64
    ensures { result ≡ min (word_count dims.now) (2 ^ 64 - 1) }
{
    let mut size: u64 = 1;
    for dim in dims {
        size = size.saturating_mul(u64::from(*dim));
    }
    size
}

fn bank_words_of(cell: &Cell) -> u64
    ensures { result ≡ bank_words (plain_cell cell.now ∷ []) }
{
    match cell {
        Cell::Bank(_, _, len) => u64::from(*len),
        _ => 0,
    }
}

fn dram_words_of(cell: &Cell) -> u64
    ensures { result ≡ min (dram_words (plain_cell cell.now ∷ [])) (2 ^ 64 - 1) }
{
    match cell {
        Cell::Dram(_, _, _, dims) => capped_size(dims),
        _ => 0,
    }
}

/// How many words the banks have, or the type's end where it is greater.
fn capped_bank_words(cells: &[Cell]) -> u64
    ensures { result ≡ min (bank_words (plain_cells cells.now)) (2 ^ 64 - 1) }
{
    let mut words: u64 = 0;
    for cell in cells {
        words = words.saturating_add(bank_words_of(cell));
    }
    words
}

/// How many words the DRAMs have, or the type's end where it is greater.
fn capped_dram_words(cells: &[Cell]) -> u64
    ensures { result ≡ min (dram_words (plain_cells cells.now)) (2 ^ 64 - 1) }
{
    let mut words: u64 = 0;
    for cell in cells {
        words = words.saturating_add(dram_words_of(cell));
    }
    words
}

/// The first of the counts of cells, bank words and DRAM words that passes its limit, or the type's end where
/// that count is greater.
fn first_over_limit(cells: &[Cell]) -> Option<u64>
    ensures { result ≡ option_map (λ count. min count (2 ^ 64 - 1)) (count_over (plain_cells cells.now)) }
{
    let cell_count = cells.len() as u64;
    if cell_count > MAX_CELLS {
        return Some(cell_count);
    }
    let bank_words = capped_bank_words(cells);
    if bank_words > MAX_BANK_WORDS {
        return Some(bank_words);
    }
    let dram_words = capped_dram_words(cells);
    if dram_words > MAX_DRAM_WORDS {
        return Some(dram_words);
    }
    None
}

/// The first fault of a list of cells within the limits.
fn find_fault(alloc: Global, cells: &[Cell]) -> Result<(), NetError>
    requires lines { AreLines (plain_cells cells.now) }
    requires within { IsWithinLimits (plain_cells cells.now) }
    ensures netlist { OnOk result (IsNetlist (plain_cells cells.now)) }
    ensures refused { IfErr result (Refuses (plain_cells cells.now)) }
{
    let (undriven, unequal) = net_faults(alloc, cells)?;
    if let Some(net) = undriven {
        return Err(NetError::Driven { net });
    }
    if let Some(net) = unequal {
        return Err(NetError::Width { net });
    }
    if let Some(net) = least_loop(alloc, cells)? {
        return Err(NetError::Loop { net });
    }
    Ok(())
}

impl Netlist {
    /// The netlist of these cells, if they are one within the limits; else their first fault of too many cells or
    /// words, a net that isn't driven once, a net at two widths and a loop. A count is looked at before any memory is
    /// taken. On a refusal the cells are gone. Takes time near linear in the cells.
    pub fn check(alloc: Global, cells: Vec<Cell>) -> Result<Netlist, NetError>
        requires { AreLines (plain_cells cells.items) }
        ensures accepted { IfOk result (λ netlist. netlist ≡ plain_cells cells.items) }
        ensures netlist { OnOk result (IsNetlist (plain_cells cells.items)) }
        ensures within { OnOk result (IsWithinLimits (plain_cells cells.items)) }
        ensures refused { IfErr result (Refuses (plain_cells cells.items)) }
        ensures over { (count : ℕ) → (result ≡ Err (NetError.NetLimit count)) ↔ Refuses (plain_cells cells.items) (NetError.NetLimit count) }
    {
        if let Some(count) = first_over_limit(&cells) {
            return Err(NetError::NetLimit { count });
        }
        find_fault(alloc, &cells)?;
        Ok(Netlist::new(alloc, cells)?)
    }
}
