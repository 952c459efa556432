//! The strongly connected components of a graph.
ghost use Rattle.std.specs.Prelude.{IfOk};
ghost use Rattle.sp_graph.specs.Components.{AreComponents, EqualNumbersJoin, NumbersTellCycles};

use crate::NoMemory;
use crate::graph::Graph;
use crate::search::Search;
use std::alloc::Global;

/// The number of each node's strongly connected component, by Tarjan's search (SIAM Journal on Computing 1(2),
/// 1972): the components are numbered in the order in which the search leaves them, so an edge leads to a node of
/// the same component or of one with a lower number. Time and memory are linear in the nodes and edges.
pub fn components(alloc: Global, graph: &Graph) -> Result<Vec<usize>, NoMemory>
    ensures { IfOk result (λ numbers. AreComponents graph.now numbers.items) }
{
    let mut search = Search::new(alloc, graph.len())?;
    for root in 0..graph.len() {
        search.visit_from(graph, root)?;
    }
    search.numbers(alloc)
}

/// A law of the numbers of components: they tell which nodes reach each other, and which nodes are on a cycle.
pub fn numbers_tell_components()
    ensures joined { EqualNumbersJoin }
    ensures cycles { NumbersTellCycles }
{}
