//! An order in which the nets of a netlist can be computed.
ghost use Rattle.std.specs.Prelude.{◌≡◌, ◌<◌, filter, length, slice_index, slice_index_or, is_some, IfOk};
ghost use Rattle.std.specs.List.{range_with_len};
ghost use Rattle.std.specs.List.Sorted.{IsPermutation, IsNonDecreasingBy};
ghost use Rattle.sp_netlist.specs.Cells.{done_cell, plain_cell, plain_cells};
ghost use Rattle.sp_netlist.specs.Rules.{is_computed};
ghost use Rattle.sp_netlist.specs.Order.{IsOrder};

use crate::NoMemory;
use crate::cell::Cell;
use crate::loops::{cell_graph, computed_places, net_computed};
use crate::netlist::Netlist;
use sp_graph::components;
use std::alloc::Global;

fn computes(cell: &Cell) -> bool
    ensures { result ≡ is_computed (plain_cell cell.now) }
{
    net_computed(cell).is_some()
}

fn computes_at(cells: &[Cell], at: usize) -> bool
    ensures { result ≡ is_computed (slice_index_or (plain_cells cells.now) at (done_cell 0)) }
{
    if at < cells.len() {
        computes(&cells[at])
    } else {
        false
    }
}

/// The places of the cells that compute.
fn computing(alloc: Global, cells: &[Cell]) -> Result<Vec<usize>, NoMemory>
    ensures { IfOk result (λ places. places.items ≡ filter (λ at. is_computed (slice_index_or (plain_cells cells.now) at (done_cell 0))) (range_with_len 0 (length cells.now))) }
{
    (0..cells.len())
        .filter(|at| computes_at(cells, *at))
        .collect(alloc)
}

fn number_of(numbers: &[usize], at: usize) -> usize
    ensures { result ≡ slice_index numbers.now at }
{
    if at < numbers.len() { numbers[at] } else { 0 }
}

/// Sorts the places by their numbers.
fn sort_by_number(places: &mut [usize], numbers: &[usize])
    ensures permutation { IsPermutation places.old places.new }
    ensures sorted { IsNonDecreasingBy (λ at. slice_index numbers.now at) places.new }
{
    places.sort_unstable_by_key(|at| number_of(numbers, *at));
}

/// The places of the `op`, `not`, `shift`, `cast` and `mux` cells, each after those that compute a net which it
/// reads. The components of the graph of operands are numbered so that an operand's number is never higher, and
/// without a loop it is lower.
pub fn evaluation_order(alloc: Global, netlist: &Netlist) -> Result<Vec<usize>, NoMemory>
    ensures { IfOk result (λ order. IsOrder netlist.now order.items) }
{
    let cells = netlist.cells();
    let places = computed_places(alloc, cells)?;
    let graph = cell_graph(alloc, cells, &places)?;
    let numbers = components(alloc, &graph)?;
    let mut order = computing(alloc, cells)?;
    sort_by_number(&mut order, &numbers);
    Ok(order)
}
