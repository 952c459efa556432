//! Tarjan's search for strongly connected components (1972), with a path of its own in place of recursion.
ghost use Rattle.std.specs.Prelude.{◌≡◌, ◌≢◌, ◌+◌, ◌<◌, ◌≤◌, ◌++◌, ◌∷◌, [], List, length, min, reverse, replicate, slice_set, slice_index_or, take, drop, map, All, IfOk, OnOk};
ghost use Rattle.sp_graph.specs.declared.search.Visit.{Visit};
ghost use Rattle.sp_graph.specs.Edges.{targets_of};
ghost use Rattle.sp_graph.specs.Search.{IsSearching, AreNumbered, SeenStays, number_of, entered, steps_left};

use crate::NoMemory;
use crate::graph::Graph;
use std::alloc::Global;
use std::cmp::min;

/// What is known of a node.
#[derive(Clone, Copy, Debug)]
enum Mark {
    /// The search hasn't come to it.
    Unseen,
    /// It stands at this place of the stack.
    OnStack(usize),
    /// Its component has this number.
    Done(usize),
}

impl Mark {
    /// The number of the node's component, once it has one.
    fn number(self) -> usize
        ensures { result ≡ number_of self }
    {
        match self {
            Mark::Done(number) => number,
            Mark::Unseen | Mark::OnStack(_) => 0,
        }
    }
}

/// A node on the path from the root of the search to where it is now.
#[derive(Clone, Copy, Debug)]
struct Visit {
    node: usize,
    /// The node's place on the stack.
    place: usize,
    /// How many of its targets were looked at.
    next: usize,
    /// The lowest place of the stack that was found to be reached from the node.
    low: usize,
}

/// Gives nodes a number.
fn give_number(marks: &mut [Mark], nodes: &[usize], number: usize)
    requires { All (λ node. node < length marks.old) nodes.now }
    ensures { AreNumbered marks.old marks.new nodes.now number }
{
    for node in nodes {
        marks[*node] = Mark::Done(number);
    }
}

/// A search. On the stack stand the nodes that were seen and whose component has no number yet.
#[derive(Debug, Drop)]
pub struct Search {
    marks: Vec<Mark>,
    stack: Vec<usize>,
    path: Vec<Visit>,
    /// How many components have a number.
    count: usize,
}

impl Search {
    /// A search that has seen no node.
    pub fn new(alloc: Global, nodes: usize) -> Result<Search, NoMemory>
        ensures marks { IfOk result (λ search. search.marks.items ≡ replicate nodes Mark.Unseen) }
        ensures stack { IfOk result (λ search. search.stack.items ≡ []) }
        ensures path { IfOk result (λ search. search.path.items ≡ []) }
        ensures count { IfOk result (λ search. search.count ≡ 0) }
    {
        let marks = vec![in alloc; Mark::Unseen; nodes]?;
        Ok(Search {
            marks,
            stack: Vec::new(alloc),
            path: Vec::new(alloc),
            count: 0,
        })
    }

    /// Comes to a node for the first time.
    fn enter(&mut self, node: usize) -> Result<(), NoMemory>
        requires { node < length self.old.marks.items }
        ensures marks { OnOk result (self.new.marks.items ≡ slice_set self.old.marks.items node (Mark.OnStack (length self.old.stack.items))) }
        ensures stack { OnOk result (self.new.stack.items ≡ self.old.stack.items ++ node ∷ []) }
        ensures path { OnOk result (self.new.path.items ≡ self.old.path.items ++ entered node (length self.old.stack.items) ∷ []) }
        ensures count { OnOk result (self.new.count ≡ self.old.count) }
    {
        let place = self.stack.len();
        self.stack.push(node)?;
        self.path.push(Visit {
            node,
            place,
            next: 0,
            low: place,
        })?;
        self.marks[node] = Mark::OnStack(place);
        Ok(())
    }

    /// Gives the nodes from a place of the stack on the next number, and takes them from the stack.
    fn close(&mut self, place: usize)
        requires place { place ≤ length self.old.stack.items }
        requires nodes { All (λ node. node < length self.old.marks.items) self.old.stack.items }
        requires count { self.old.count < length self.old.marks.items }
        ensures marks { AreNumbered self.old.marks.items self.new.marks.items (drop place self.old.stack.items) self.old.count }
        ensures stack { self.new.stack.items ≡ take place self.old.stack.items }
        ensures path { self.new.path ≡ self.old.path }
        ensures count { self.new.count ≡ self.old.count + 1 }
    {
        give_number(&mut self.marks, &self.stack[place..], self.count);
        self.stack.truncate(place);
        self.count += 1;
    }

    /// Lowers the lowest place that the last visit of the path is known to reach.
    fn lower(&mut self, low: usize)
        ensures path { (visits : List Visit) → (visit : Visit) → self.old.path.items ≡ visits ++ visit ∷ [] → self.new.path.items ≡ visits ++ record visit { low = min visit.low low } ∷ [] }
        ensures marks { self.new.marks ≡ self.old.marks }
        ensures stack { self.new.stack ≡ self.old.stack }
        ensures count { self.new.count ≡ self.old.count }
    {
        if let Some(visit) = self.path.last_mut() {
            visit.low = min(visit.low, low);
        }
    }

    /// Looks at the next target of a visit. Where the search comes to it for the first time, it is looked at
    /// again when the search is back at this visit.
    fn look_at_next(&mut self, graph: &Graph, visit: Visit) -> Result<(), NoMemory>
        requires search { IsSearching graph.now self.old (visit ∷ reverse self.old.path.items) }
        requires next { visit.next < length (targets_of graph.now visit.node) }
        ensures search { OnOk result (IsSearching graph.now self.new (reverse self.new.path.items)) }
        ensures seen { OnOk result (SeenStays self.old.marks.items self.new.marks.items) }
        ensures fewer { OnOk result (steps_left graph.now self.new (reverse self.new.path.items) < steps_left graph.now self.old (visit ∷ reverse self.old.path.items)) }
    {
        let target = graph.targets(visit.node)[visit.next];
        let next = visit.next + 1;
        match self.marks[target] {
            Mark::Unseen => {
                self.path.push(visit)?;
                self.enter(target)
            }
            Mark::OnStack(place) => {
                let low = min(visit.low, place);
                Ok(self.path.push(Visit { next, low, ..visit })?)
            }
            Mark::Done(_) => Ok(self.path.push(Visit { next, ..visit })?),
        }
    }

    /// Goes on from a visit that was taken from the path: looks at its next target, or leaves it.
    fn go_on(&mut self, graph: &Graph, visit: Visit) -> Result<(), NoMemory>
        requires { IsSearching graph.now self.old (visit ∷ reverse self.old.path.items) }
        ensures search { OnOk result (IsSearching graph.now self.new (reverse self.new.path.items)) }
        ensures seen { OnOk result (SeenStays self.old.marks.items self.new.marks.items) }
        ensures fewer { OnOk result (steps_left graph.now self.new (reverse self.new.path.items) < steps_left graph.now self.old (visit ∷ reverse self.old.path.items)) }
    {
        if visit.next < graph.targets(visit.node).len() {
            return self.look_at_next(graph, visit);
        }
        if visit.low == visit.place {
            self.close(visit.place);
        } else {
            self.lower(visit.low);
        }
        Ok(())
    }

    /// Comes to a node, if it wasn't seen, and to all nodes that are reached from it.
    pub fn visit_from(&mut self, graph: &Graph, root: usize) -> Result<(), NoMemory>
        requires search { IsSearching graph.now self.old [] }
        requires path { self.old.path.items ≡ [] }
        requires root { root < length graph.now }
        ensures search { OnOk result (IsSearching graph.now self.new []) }
        ensures path { OnOk result (self.new.path.items ≡ []) }
        ensures root { OnOk result (slice_index_or self.new.marks.items root Mark.Unseen ≢ Mark.Unseen) }
        ensures seen { OnOk result (SeenStays self.old.marks.items self.new.marks.items) }
    {
        if let Mark::Unseen = self.marks[root] {
            self.enter(root)?;
            while let Some(visit) = self.path.pop() {
                self.go_on(graph, visit)?;
            }
        }
        Ok(())
    }

    /// The number of each node's component, where each node has one.
    pub fn numbers(&self, alloc: Global) -> Result<Vec<usize>, NoMemory>
        ensures { IfOk result (λ numbers. numbers.items ≡ map number_of self.now.marks.items) }
    {
        self.marks.iter().map(|mark| mark.number()).collect(alloc)
    }
}
