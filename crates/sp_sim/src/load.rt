//! What a simulation begins with.
ghost use Rattle.std.specs.Prelude.{◌≡◌, ℕ, ◌↔◌, ◌++◌, List, map, flat_map, length, replicate, count_by, All, Contains, IfOk, OnOk};
ghost use Rattle.std.specs.List.{fold};
ghost use Rattle.std.specs.List.Sorted.{IsStrictlyIncreasing};
ghost use Rattle.sp_netlist.specs.Cells.{PlainCell, plain_cell, plain_cells};
ghost use Rattle.sp_netlist.specs.Rules.{drives, driven_nets, is_bank, is_unit};
ghost use Rattle.sp_sim.specs.Phases.{plain_phase};
ghost use Rattle.sp_netlist.specs.Signals.{idle};
ghost use Rattle.sp_sim.specs.Given.{IsGiven};
ghost use Rattle.sp_sim.specs.Loading as loading;

use crate::NoMemory;
use crate::memory::Memory;
use crate::phase::Phase;
use crate::row::Row;
use crate::state::State;
use sp_netlist::{Cell, Netlist};
use sp_words::Input;
use std::alloc::Global;

/// Adds the nets that the cell drives.
fn push_nets(cell: &Cell, nets: &mut Vec<u64>) -> Result<(), NoMemory>
    ensures { OnOk result ((cells : List PlainCell) → nets.new.items ≡ nets.old.items ++ map (λ p. p.0) (drives cells (plain_cell cell.now))) }
{
    match cell {
        Cell::In(_, net, _)
        | Cell::Const(net, _, _)
        | Cell::Op(net, _, _, _, _)
        | Cell::Not(net, _, _)
        | Cell::Shift(net, _, _, _, _)
        | Cell::Cast(net, _, _, _)
        | Cell::Mux(net, _, _, _, _)
        | Cell::Hold(net, _, _, _, _)
        | Cell::ReadTap(net, _, _, _)
        | Cell::StoreUnit(_, _, net, _, _, _, _) => nets.push(net.number())?,
        Cell::LoadUnit(_, _, ready, net, _, _, _) => {
            nets.push(ready.number())?;
            nets.push(net.number())?;
        }
        _ => {}
    }
    Ok(())
}

/// The nets that the cells drive, in the order of the cells.
fn driven(alloc: Global, cells: &[Cell]) -> Result<Vec<u64>, NoMemory>
    ensures { IfOk result (λ nets. nets.items ≡ map (λ p. p.0) (driven_nets (plain_cells cells.now))) }
{
    let mut nets = Vec::new(alloc);
    for cell in cells {
        push_nets(cell, &mut nets)?;
    }
    Ok(nets)
}

/// The nets that the cells drive, ascending.
pub(crate) fn sorted_nets(alloc: Global, cells: &[Cell]) -> Result<Vec<u64>, NoMemory>
    ensures ascending { IfOk result (λ nets. IsStrictlyIncreasing nets.items) }
    ensures same { IfOk result (λ nets. (net : ℕ) → Contains nets.items net ↔ Contains (map (λ p. p.0) (driven_nets (plain_cells cells.now))) net) }
{
    let mut nets = driven(alloc, cells)?;
    nets.sort_unstable();
    nets.dedup();
    Ok(nets)
}

/// Puts the first word of a cell's net. What comes back is how many arguments were given by then.
fn first_cell(cell: &Cell, args: &[u64], seen: usize, row: &mut Row) -> usize
    ensures { record { row = row.new; seen = result } ≡ loading.first_one args.now (record { row = row.old; seen = seen }) (plain_cell cell.now) }
{
    match cell {
        Cell::In(_, net, _) if seen < args.len() => {
            row.put(*net, args[seen]);
            seen + 1
        }
        Cell::In(_, net, _) => {
            row.put(*net, 0);
            seen
        }
        Cell::Const(net, _, word) | Cell::Hold(net, _, word, _, _) => {
            row.put(*net, *word);
            seen
        }
        _ => seen,
    }
}

/// Puts the first words of the nets.
pub(crate) fn first_words(cells: &[Cell], args: &[u64], row: &mut Row) -> usize
    ensures { record { row = row.new; seen = result } ≡ fold (loading.first_one args.now) (record { row = row.old; seen = 0 }) (plain_cells cells.now) }
{
    let mut seen = 0;
    for cell in cells {
        seen = first_cell(cell, args, seen, row);
    }
    seen
}

/// A row of the nets that the cells drive, with the word 0 for each.
pub(crate) fn empty_row(alloc: Global, cells: &[Cell]) -> Result<Row, NoMemory>
    ensures { IfOk result (λ row. (nets : List ℕ) × (row ≡ map (λ n. (n, 0)) nets) × ((net : ℕ) → Contains nets net ↔ Contains (map (λ p. p.0) (driven_nets (plain_cells cells.now))) net)) }
{
    let nets = sorted_nets(alloc, cells)?;
    let row = Row::new(alloc, &nets)?;
    Ok(row)
}

fn push_bank(alloc: Global, cell: &Cell, banks: &mut Vec<Memory>) -> Result<(), NoMemory>
    requires { loading.HasWidth (plain_cell cell.now) }
    ensures { OnOk result (banks.new.items ≡ banks.old.items ++ loading.fresh_bank (plain_cell cell.now)) }
{
    if let Cell::Bank(_, width, len) = cell {
        banks.push(Memory::new(alloc, *width, *len as usize)?)?;
    }
    Ok(())
}

/// The banks, all of whose words are 0.
pub(crate) fn first_banks(alloc: Global, cells: &[Cell]) -> Result<Vec<Memory>, NoMemory>
    requires { All loading.HasWidth (plain_cells cells.now) }
    ensures { IfOk result (λ banks. banks.items ≡ flat_map loading.fresh_bank (plain_cells cells.now)) }
{
    let mut banks = Vec::new(alloc);
    for cell in cells {
        push_bank(alloc, cell, &mut banks)?;
    }
    Ok(banks)
}

fn push_dram(
    alloc: Global,
    cell: &Cell,
    contents: &[Vec<u64>],
    drams: &mut Vec<Memory>,
) -> Result<(), NoMemory>
    requires { loading.HasContents (map (λ v. v.items) contents.now) (plain_cell cell.now) }
    ensures { OnOk result (drams.new.items ≡ drams.old.items ++ loading.fresh_dram (map (λ v. v.items) contents.now) (plain_cell cell.now)) }
{
    if let Cell::Dram(dram, _, ty, _) = cell {
        let words = &contents[*dram as usize];
        drams.push(Memory::of(alloc, ty.width(), words)?)?;
    }
    Ok(())
}

/// The DRAMs with their contents.
pub(crate) fn first_drams(
    alloc: Global,
    cells: &[Cell],
    contents: &[Vec<u64>],
) -> Result<Vec<Memory>, NoMemory>
    requires { All (loading.HasContents (map (λ v. v.items) contents.now)) (plain_cells cells.now) }
    ensures { IfOk result (λ drams. drams.items ≡ flat_map (loading.fresh_dram (map (λ v. v.items) contents.now)) (plain_cells cells.now)) }
{
    let mut drams = Vec::new(alloc);
    for cell in cells {
        push_dram(alloc, cell, contents, &mut drams)?;
    }
    Ok(drams)
}

fn is_unit_cell(cell: &Cell) -> bool
    ensures { result ≡ is_unit (plain_cell cell.now) }
{
    matches!(
        cell,
        Cell::LoadUnit(_, _, _, _, _, _, _) | Cell::StoreUnit(_, _, _, _, _, _, _)
    )
}

fn count_units(cells: &[Cell]) -> usize
    ensures { result ≡ count_by is_unit (plain_cells cells.now) }
{
    let mut count = 0;
    for cell in cells {
        if is_unit_cell(cell) {
            count += 1;
        }
    }
    count
}

/// As many idle channels as there are units.
pub(crate) fn first_phases(alloc: Global, cells: &[Cell]) -> Result<Vec<Phase>, NoMemory>
    ensures { IfOk result (λ phases. map plain_phase phases.items ≡ replicate (count_by is_unit (plain_cells cells.now)) idle) }
{
    let count = count_units(cells);
    let mut phases = Vec::new(alloc);
    for _channel in 0..count {
        phases.push(Phase::Idle)?;
    }
    Ok(phases)
}

/// A count of 0 for each bank.
pub(crate) fn first_counts(alloc: Global, banks: usize) -> Result<Vec<u8>, NoMemory>
    ensures { IfOk result (λ counts. length counts.items ≡ banks) }
{
    let mut counts = Vec::new(alloc);
    for _bank in 0..banks {
        counts.push(0)?;
    }
    Ok(counts)
}

/// The state in cycle 0.
pub(crate) fn first_state(
    alloc: Global,
    netlist: &Netlist,
    input: &Input,
) -> Result<State, NoMemory>
    requires { IsGiven netlist.now input.now.args.items (map (λ v. v.items) input.now.drams.items) }
    ensures { IfOk result (loading.BeginsWith netlist.now input.now.args.items (map (λ v. v.items) input.now.drams.items)) }
{
    let cells = netlist.cells();
    let mut row = empty_row(alloc, cells)?;
    let _seen = first_words(cells, &input.args, &mut row);
    let mut next = empty_row(alloc, cells)?;
    let _seen = first_words(cells, &input.args, &mut next);
    let banks = first_banks(alloc, cells)?;
    let drams = first_drams(alloc, cells, &input.drams)?;
    let phases = first_phases(alloc, cells)?;
    let reads = first_counts(alloc, banks.len())?;
    let writes = first_counts(alloc, banks.len())?;
    Ok(State {
        row,
        next,
        banks,
        drams,
        phases,
        taken: 0,
        reads,
        writes,
    })
}
