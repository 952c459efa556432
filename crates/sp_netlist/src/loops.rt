//! The least net that is computed from itself, by the strongly connected components of the cells.
ghost use Rattle.std.specs.Prelude.{◌≡◌, ℕ, ◌<◌, ◌≤◌, ◌↔◌, ◌∷◌, [], Some, None, length, filter_map, IsTrue, IfOk, OnOk};
ghost use Rattle.std.specs.BTreeMap.{get};
ghost use Rattle.std.specs.Ordering.{nat_cmp};
ghost use Rattle.sp_netlist.specs.Cells.{plain_cell, plain_cells};
ghost use Rattle.sp_netlist.specs.Rules.{IsRanked};
ghost use Rattle.sp_netlist.specs.Draft.{driver_count};
ghost use Rattle.sp_netlist.specs.Refusals.{IsLooped};
ghost use Rattle.sp_netlist.specs.Tables.{IsLeastOrNone};
ghost use Rattle.sp_netlist.specs.CellGraph.{computed_net, operands, ComputedOnce, ArePlaces, place_with, IsCellGraph, HasTargets, StaysAt, IsComputedOnLoop};

use crate::NoMemory;
use crate::cell::{Cell, NetId};
use crate::nets::least_of_two;
use sp_graph::{Graph, components};
use std::alloc::Global;
use std::collections::BTreeMap;

/// The net that the cell computes, if it is an `op`, `not`, `shift`, `cast` or `mux`.
pub(crate) fn net_computed(cell: &Cell) -> Option<NetId>
    ensures { result ≡ computed_net (plain_cell cell.now) }
{
    match cell {
        Cell::Op(net, _, _, _, _) => Some(*net),
        Cell::Not(net, _, _) => Some(*net),
        Cell::Shift(net, _, _, _, _) => Some(*net),
        Cell::Cast(net, _, _, _) => Some(*net),
        Cell::Mux(net, _, _, _, _) => Some(*net),
        _ => None,
    }
}

/// Puts the place of the cell under the net that it computes.
fn keep_place(places: &mut BTreeMap<u64, usize>, place: usize, cell: &Cell) -> Result<(), NoMemory>
    ensures { OnOk result ((net : ℕ) → get nat_cmp places.new net ≡ place_with (computed_net (plain_cell cell.now)) place (get nat_cmp places.old) net) }
{
    if let Some(net) = net_computed(cell) {
        places.insert(net.number(), place)?;
    }
    Ok(())
}

/// Where each computed net is computed.
pub(crate) fn computed_places(
    alloc: Global,
    cells: &[Cell],
) -> Result<BTreeMap<u64, usize>, NoMemory>
    ensures { IfOk result (λ places. ArePlaces (plain_cells cells.now) (get nat_cmp places)) }
{
    let mut places = BTreeMap::new(alloc);
    for (place, cell) in cells.iter().enumerate() {
        keep_place(&mut places, place, cell)?;
    }
    Ok(places)
}

fn place_of(places: &BTreeMap<u64, usize>, net: NetId) -> Option<usize>
    ensures { result ≡ get nat_cmp places.now net }
{
    places.get(&net.number()).copied()
}

/// Adds an edge to the cell that computes the net, if one does.
fn link_net(
    graph: &mut Graph,
    places: &BTreeMap<u64, usize>,
    from: usize,
    net: NetId,
) -> Result<(), NoMemory>
    requires from { from < length graph.old }
    requires within { (net place : ℕ) → get nat_cmp places.now net ≡ Some place → place < length graph.old }
    ensures { OnOk result (HasTargets graph.old graph.new from (filter_map (get nat_cmp places.now) (net ∷ []))) }
{
    if let Some(place) = place_of(places, net) {
        graph.add_edge(from, place)?;
    }
    Ok(())
}

/// Adds the edges of a cell that computes.
fn link_cell(
    graph: &mut Graph,
    places: &BTreeMap<u64, usize>,
    from: usize,
    cell: &Cell,
) -> Result<(), NoMemory>
    requires from { from < length graph.old }
    requires within { (net place : ℕ) → get nat_cmp places.now net ≡ Some place → place < length graph.old }
    ensures { OnOk result (HasTargets graph.old graph.new from (filter_map (get nat_cmp places.now) (operands (plain_cell cell.now)))) }
{
    match cell {
        Cell::Op(_, _, _, a, b) => {
            link_net(graph, places, from, *a)?;
            link_net(graph, places, from, *b)
        }
        Cell::Not(_, _, a) => link_net(graph, places, from, *a),
        Cell::Shift(_, _, _, a, _) => link_net(graph, places, from, *a),
        Cell::Cast(_, _, _, a) => link_net(graph, places, from, *a),
        Cell::Mux(_, _, choice, a, b) => {
            link_net(graph, places, from, *choice)?;
            link_net(graph, places, from, *a)?;
            link_net(graph, places, from, *b)
        }
        _ => Ok(()),
    }
}

/// The graph of the cells, with an edge from each to those that compute its operands.
pub(crate) fn cell_graph(
    alloc: Global,
    cells: &[Cell],
    places: &BTreeMap<u64, usize>,
) -> Result<Graph, NoMemory>
    requires once { ComputedOnce (plain_cells cells.now) }
    requires places { ArePlaces (plain_cells cells.now) (get nat_cmp places.now) }
    ensures { IfOk result (λ graph. IsCellGraph (plain_cells cells.now) graph) }
{
    let mut graph = Graph::new(alloc, cells.len())?;
    for (place, cell) in cells.iter().enumerate() {
        link_cell(&mut graph, places, place, cell)?;
    }
    Ok(graph)
}

/// Whether an edge leads from the node to one of its own component.
fn stays(graph: &Graph, numbers: &[usize], node: usize) -> bool
    requires node { node < length graph.now }
    requires numbers { length numbers.now ≡ length graph.now }
    ensures { IsTrue result ↔ StaysAt graph.now numbers.now node }
{
    let own = numbers[node];
    let targets = graph.targets(node);
    for target in targets {
        if numbers[*target] == own {
            return true;
        }
    }
    false
}

/// The net that the cell at the place computes, if an edge leads from it to one of its own component.
fn net_on_loop(graph: &Graph, numbers: &[usize], place: usize, cell: &Cell) -> Option<u64>
    requires place { place < length graph.now }
    requires numbers { length numbers.now ≡ length graph.now }
    ensures { IsLeastOrNone (λ net. (computed_net (plain_cell cell.now) ≡ Some net) × StaysAt graph.now numbers.now place) result }
{
    let net = net_computed(cell)?;
    if stays(graph, numbers, place) {
        Some(net.number())
    } else {
        None
    }
}

fn least_on_loop(cells: &[Cell], graph: &Graph, numbers: &[usize]) -> Option<u64>
    requires places { length graph.now ≡ length cells.now }
    requires numbers { length numbers.now ≡ length graph.now }
    ensures { IsLeastOrNone (IsComputedOnLoop (plain_cells cells.now) graph.now numbers.now) result }
{
    let mut least = None;
    for (place, cell) in cells.iter().enumerate() {
        least = least_of_two(least, net_on_loop(graph, numbers, place, cell));
    }
    least
}

/// The least net that is computed from itself, in a list of cells that drive no net twice. An edge to a node of another
/// component leads to a lower number, so the numbers rank the nets where there is none.
pub(crate) fn least_loop(alloc: Global, cells: &[Cell]) -> Result<Option<u64>, NoMemory>
    requires { (net : ℕ) → driver_count (plain_cells cells.now) net ≤ 1 }
    ensures looped { IfOk result (λ least. IsLeastOrNone (IsLooped (plain_cells cells.now)) least) }
    ensures ranked { IfOk result (λ least. least ≡ None → IsRanked (plain_cells cells.now)) }
{
    let places = computed_places(alloc, cells)?;
    let graph = cell_graph(alloc, cells, &places)?;
    let numbers = components(alloc, &graph)?;
    Ok(least_on_loop(cells, &graph, &numbers))
}
