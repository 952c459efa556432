//! The cells of a netlist by what they do in a cycle.
ghost use Rattle.std.specs.Prelude.{◌≡◌, ◌++◌, ◌∷◌, [], map, filter, All, IfOk, OnOk};
ghost use Rattle.sp_netlist.specs.Cells.{plain_cell, plain_cells};
ghost use Rattle.sp_sim.specs.Settling.{cell_at};
ghost use Rattle.sp_netlist.specs.Order.{IsComputing};
ghost use Rattle.sp_sim.specs.Programs.{in_part, IsProgram};
ghost use Rattle.sp_sim.specs.Levels.{AreOrdered};
ghost use Rattle.sp_sim.specs.Runs.{AreRunsOf};
ghost use Rattle.sp_sim.specs.Steps.{cell_of, cells_of};

use crate::NoMemory;
use crate::levels::by_levels;
use crate::load::sorted_nets;
use crate::run::{Run, runs_of};
use crate::step::{Step, step_of};
use sp_netlist::{Cell, Netlist, evaluation_order};
use std::alloc::Global;

/// What some cells do in a cycle.
#[derive(Clone, Copy)]
pub(crate) enum Part {
    /// Read taps.
    Reads,
    /// Write taps.
    Writes,
    /// They keep a word that may change: registers, read taps, loads and stores.
    Kept,
    /// Loads and stores.
    Units,
    /// The done.
    Dones,
}

/// A netlist's cells, part by part, so that a cycle goes once through each part and looks at no cell that has nothing
/// to do. Those that compute are runs of steps, in an order in which operands come first; the others are copies.
#[derive(Drop)]
pub(crate) struct Program {
    pub(crate) runs: Vec<Run>,
    pub(crate) reads: Vec<Cell>,
    pub(crate) writes: Vec<Cell>,
    pub(crate) kept: Vec<Cell>,
    pub(crate) units: Vec<Cell>,
    pub(crate) dones: Vec<Cell>,
}

fn is_in_part(part: Part, cell: &Cell) -> bool
    ensures { result ≡ in_part part (plain_cell cell.now) }
{
    match part {
        Part::Reads => matches!(cell, Cell::ReadTap(_, _, _, _)),
        Part::Writes => matches!(cell, Cell::WriteTap(_, _, _, _)),
        Part::Kept => is_kept(cell),
        Part::Units => is_unit(cell),
        Part::Dones => matches!(cell, Cell::Done(_)),
    }
}

fn is_unit(cell: &Cell) -> bool
    ensures { result ≡ in_part Part.Units (plain_cell cell.now) }
{
    matches!(
        cell,
        Cell::LoadUnit(_, _, _, _, _, _, _) | Cell::StoreUnit(_, _, _, _, _, _, _)
    )
}

fn is_kept(cell: &Cell) -> bool
    ensures { result ≡ in_part Part.Kept (plain_cell cell.now) }
{
    matches!(
        cell,
        Cell::Hold(_, _, _, _, _)
            | Cell::ReadTap(_, _, _, _)
            | Cell::LoadUnit(_, _, _, _, _, _, _)
            | Cell::StoreUnit(_, _, _, _, _, _, _)
    )
}

/// A copy of a cell.
fn copy_of(cell: &Cell) -> Result<Cell, NoMemory>
    ensures { IfOk result (λ copy. plain_cell copy ≡ plain_cell cell.now) }
{
    cell.clone()
}

/// Adds a copy of the cell, if it is of the part.
fn push_cell(found: &mut Vec<Cell>, part: Part, cell: &Cell) -> Result<(), NoMemory>
    ensures { OnOk result (plain_cells found.new.items ≡ plain_cells found.old.items ++ filter (in_part part) (plain_cell cell.now ∷ [])) }
{
    if is_in_part(part, cell) {
        found.push(copy_of(cell)?)?;
    }
    Ok(())
}

/// The cells of a part.
fn cells_in(alloc: Global, cells: &[Cell], part: Part) -> Result<Vec<Cell>, NoMemory>
    ensures { IfOk result (λ found. plain_cells found.items ≡ filter (in_part part) (plain_cells cells.now)) }
{
    let mut found = Vec::new(alloc);
    for cell in cells {
        push_cell(&mut found, part, cell)?;
    }
    Ok(found)
}

/// The step of the cell at a place.
fn step_at(cells: &[Cell], at: usize) -> Step
    requires { IsComputing (plain_cells cells.now) at }
    ensures { cell_of result ≡ cell_at (plain_cells cells.now) at }
{
    step_of(&cells[at])
}

/// The steps of the cells at these places.
fn steps_at(alloc: Global, cells: &[Cell], places: &[usize]) -> Result<Vec<Step>, NoMemory>
    requires { All (IsComputing (plain_cells cells.now)) places.now }
    ensures { IfOk result (λ found. cells_of found.items ≡ map (cell_at (plain_cells cells.now)) places.now) }
{
    let mut found = Vec::with_capacity(alloc, places.len())?;
    for at in places {
        found.push(step_at(cells, *at))?;
    }
    Ok(found)
}

/// The steps as runs of places in a row of the netlist.
fn placed(alloc: Global, netlist: &Netlist, steps: &[Step]) -> Result<Vec<Run>, NoMemory>
    requires { AreOrdered netlist.now steps.now }
    ensures { IfOk result (λ runs. AreRunsOf netlist.now runs.items (cells_of steps.now)) }
{
    let nets = sorted_nets(alloc, netlist.cells())?;
    let runs = runs_of(alloc, &nets, steps)?;
    Ok(runs)
}

/// The netlist's cells, part by part.
pub(crate) fn program_of(alloc: Global, netlist: &Netlist) -> Result<Program, NoMemory>
    ensures { IfOk result (IsProgram netlist.now) }
{
    let order = evaluation_order(alloc, netlist)?;
    let cells = netlist.cells();
    let mut steps = steps_at(alloc, cells, &order)?;
    by_levels(alloc, netlist, &mut steps)?;
    let runs = placed(alloc, netlist, &steps)?;
    let reads = cells_in(alloc, cells, Part::Reads)?;
    let writes = cells_in(alloc, cells, Part::Writes)?;
    let kept = cells_in(alloc, cells, Part::Kept)?;
    let units = cells_in(alloc, cells, Part::Units)?;
    let dones = cells_in(alloc, cells, Part::Dones)?;
    Ok(Program {
        runs,
        reads,
        writes,
        kept,
        units,
        dones,
    })
}
