//! Directed graphs as lists of targets.
ghost use Rattle.std.specs.Prelude.{◌≡◌, ◌<◌, ◌++◌, ◌∷◌, [], length, replicate, slice_set, All, IfOk, OnOk, OnErr};
ghost use Rattle.sp_graph.specs.Edges.{targets_of, IsGraph};

use crate::NoMemory;
use std::alloc::Global;
use std::marker::Model;

/// A directed graph over the nodes 0, 1, .., up to the number of nodes: for each node its targets, the nodes that
/// its edges lead to, in the order in which the edges were added.
#[derive(Debug, Drop)]
pub struct Graph {
    targets: Vec<Vec<usize>>,
}

impl Model for Graph {
    ghost use Rattle.std.specs.Prelude.{ℕ, List, map};
    ghost use Rattle.sp_graph.specs.Edges.{IsGraph};

    ghost Value = { List (List ℕ) };

    ghost view = { λ g. map (λ v. v.items) g.targets.items };

    ghost invariant = { λ g. IsGraph (map (λ v. v.items) g.targets.items) };
}

impl Graph {
    /// A graph of so many nodes without an edge.
    pub fn new(alloc: Global, nodes: usize) -> Result<Graph, NoMemory>
        ensures { IfOk result (λ graph. graph ≡ replicate nodes []) }
    {
        let mut targets = Vec::new(alloc);
        for _ in 0..nodes {
            targets.push(Vec::new(alloc))?;
        }
        Ok(Graph { targets })
    }

    /// How many nodes the graph has.
    pub fn len(&self) -> usize
        ensures nodes { result ≡ length self.now }
        ensures graph { IsGraph self.now }
    {
        self.targets.len()
    }

    /// The targets of a node.
    pub fn targets(&self, node: usize) -> &[usize]
        requires { node < length self.now }
        ensures targets { result.now ≡ targets_of self.now node }
        ensures nodes { All (λ target. target < length self.now) result.now }
        ensures graph { IsGraph self.now }
    {
        self.targets[node].as_slice()
    }

    /// Adds an edge after those of its node. On want of memory the graph stays as it was.
    pub fn add_edge(&mut self, from: usize, to: usize) -> Result<(), NoMemory>
        requires from { from < length self.old }
        requires to { to < length self.old }
        ensures added { OnOk result (self.new ≡ slice_set self.old from (targets_of self.old from ++ to ∷ [])) }
        ensures unchanged { OnErr result (self.new ≡ self.old) }
    {
        self.targets[from].push(to)?;
        Ok(())
    }
}
