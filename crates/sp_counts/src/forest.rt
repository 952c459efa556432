//! Whether edges between numbered vertices form a forest.

ghost use Rattle.std.specs.Prelude.{◌≡◌, ◌==◌, ◌<◌, ℕ, not, map, length, vec_len, slice_index, IfOk, IsTrue, if◌then◌else◌};
ghost use Rattle.sp_tree.specs.Streams.{are_joined, is_forest};
ghost use Rattle.sp_counts.specs.Streams.{edge_of, AreBelow};

use crate::NoMemory;
use std::alloc::Global;

/// An edge between two vertices.
#[derive(Clone, Copy, Debug)]
pub(crate) struct Edge {
    pub(crate) one: usize,
    pub(crate) two: usize,
}

/// Every vertex under its own number.
fn own_labels(alloc: Global, n: usize) -> Result<Vec<usize>, NoMemory>
    ensures { IfOk result (λ labels. (length labels.items ≡ n) × ((x : ℕ) → x < n → slice_index labels.items x ≡ x)) }
{
    let mut labels = Vec::new(alloc);
    for x in 0..n {
        labels.push(x)?;
    }
    Ok(labels)
}

/// All that have one label get another.
fn relabel(labels: &mut Vec<usize>, from: usize, to: usize)
    ensures len { vec_len labels.new ≡ vec_len labels.old }
    ensures labels { (x : ℕ) → x < vec_len labels.old → slice_index labels.new.items x ≡ (if slice_index labels.old.items x == from then to else slice_index labels.old.items x) }
{
    for i in 0..labels.len() {
        if labels[i] == from {
            labels[i] = to;
        }
    }
}

/// Joins the ends of an edge; false where they are joined already.
fn join(labels: &mut Vec<usize>, edge: Edge) -> bool
    requires one { edge.one < vec_len labels.old }
    requires two { edge.two < vec_len labels.old }
    ensures apart { result ≡ not (slice_index labels.old.items edge.one == slice_index labels.old.items edge.two) }
    ensures len { vec_len labels.new ≡ vec_len labels.old }
    ensures joined { IsTrue result → (x : ℕ) → x < vec_len labels.old → slice_index labels.new.items x ≡ (if slice_index labels.old.items x == slice_index labels.old.items edge.one then slice_index labels.old.items edge.two else slice_index labels.old.items x) }
{
    let one = labels[edge.one];
    let two = labels[edge.two];
    if one == two {
        return false;
    }
    relabel(labels, one, two);
    true
}

/// Whether no edge joins two vertices that the edges after it join already. The vertices are below n.
pub(crate) fn is_forest(alloc: Global, n: usize, edges: &[Edge]) -> Result<bool, NoMemory>
    requires { AreBelow n (map edge_of edges.now) }
    ensures { IfOk result (λ is. is ≡ is_forest (map edge_of edges.now)) }
{
    let mut labels = own_labels(alloc, n)?;
    for k in 0..edges.len() {
        let edge = edges[edges.len() - 1 - k];
        if !join(&mut labels, edge) {
            return Ok(false);
        }
    }
    Ok(true)
}
