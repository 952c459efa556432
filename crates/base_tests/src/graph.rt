use sp_graph::{Graph, NoMemory, components};
use std::alloc::Global;
use std::test::Fail;

fn graph_of(alloc: Global, nodes: usize, edges: &[(usize, usize)]) -> Result<Graph, NoMemory> {
    let mut graph = Graph::new(alloc, nodes)?;
    for &(from, to) in edges {
        if from < graph.len() && to < graph.len() {
            graph.add_edge(from, to)?;
        }
    }
    Ok(graph)
}

// For each node the first node of its number.
fn first_of_each(alloc: Global, numbers: &[usize]) -> Result<Vec<usize>, NoMemory> {
    let mut firsts = Vec::new(alloc);
    for number in numbers {
        firsts.push(numbers.iter().position(|n| n == number).unwrap_or(0))?;
    }
    Ok(firsts)
}

// How many nodes, the edges, and for each node the first node of its component, by the transitive closure of the
// edges.
type Case = (usize, &'static [(usize, usize)], &'static [usize]);

#[test]
fn components_of_small_graphs(rt: HostRuntime) -> Result<(), Fail> {
    let cases: [Case; 22] = [
        (0, &[], &[]),
        (1, &[], &[0]),
        (1, &[(0, 0)], &[0]),
        (2, &[(0, 1)], &[0, 1]),
        (2, &[(1, 0)], &[0, 1]),
        (2, &[(0, 1), (1, 0)], &[0, 0]),
        (3, &[(0, 1), (1, 2), (2, 0)], &[0, 0, 0]),
        (3, &[(2, 1), (1, 0), (0, 2)], &[0, 0, 0]),
        (4, &[(0, 1), (1, 0), (2, 3), (3, 2)], &[0, 0, 2, 2]),
        (4, &[(0, 1), (1, 0), (2, 3), (3, 2), (1, 2)], &[0, 0, 2, 2]),
        (
            5,
            &[(4, 3), (3, 2), (2, 1), (1, 0), (0, 3)],
            &[0, 0, 0, 0, 4],
        ),
        (
            5,
            &[(0, 1), (0, 2), (1, 3), (2, 3), (3, 4), (3, 4)],
            &[0, 1, 2, 3, 4],
        ),
        (
            6,
            &[
                (0, 1),
                (1, 2),
                (2, 1),
                (2, 3),
                (3, 4),
                (4, 3),
                (4, 5),
                (5, 0),
            ],
            &[0, 0, 0, 0, 0, 0],
        ),
        (
            7,
            &[
                (0, 1),
                (1, 2),
                (2, 0),
                (3, 1),
                (3, 4),
                (4, 5),
                (5, 3),
                (6, 6),
                (5, 6),
            ],
            &[0, 0, 0, 3, 3, 3, 6],
        ),
        (
            6,
            &[
                (5, 5),
                (2, 1),
                (5, 2),
                (1, 5),
                (3, 2),
                (5, 3),
                (5, 1),
                (4, 5),
                (1, 2),
                (2, 3),
                (0, 0),
            ],
            &[0, 1, 1, 1, 4, 1],
        ),
        (
            7,
            &[
                (2, 1),
                (3, 3),
                (5, 3),
                (1, 5),
                (6, 4),
                (5, 4),
                (4, 5),
                (4, 6),
                (3, 2),
                (6, 1),
                (3, 1),
                (0, 6),
                (3, 6),
                (3, 4),
            ],
            &[0, 1, 1, 1, 1, 1, 1],
        ),
        (
            8,
            &[
                (2, 5),
                (1, 1),
                (3, 4),
                (6, 7),
                (1, 3),
                (5, 7),
                (4, 2),
                (1, 1),
                (4, 2),
                (7, 7),
                (0, 3),
                (5, 3),
                (4, 2),
            ],
            &[0, 1, 2, 2, 2, 2, 6, 7],
        ),
        (
            9,
            &[
                (3, 7),
                (8, 7),
                (1, 6),
                (5, 7),
                (2, 8),
                (7, 6),
                (3, 7),
                (6, 8),
                (6, 3),
                (0, 1),
                (8, 7),
                (4, 1),
                (6, 8),
                (2, 6),
                (5, 7),
                (7, 4),
                (2, 6),
                (7, 0),
            ],
            &[0, 0, 2, 0, 0, 5, 0, 0, 0],
        ),
        (
            9,
            &[
                (5, 3),
                (5, 3),
                (0, 8),
                (6, 4),
                (4, 6),
                (4, 7),
                (0, 5),
                (4, 5),
                (3, 6),
                (0, 3),
                (8, 1),
                (6, 0),
                (6, 0),
                (4, 4),
                (4, 1),
                (7, 0),
            ],
            &[0, 1, 2, 0, 0, 0, 0, 0, 8],
        ),
        (
            7,
            &[
                (2, 6),
                (6, 4),
                (5, 5),
                (2, 5),
                (3, 1),
                (3, 0),
                (2, 6),
                (5, 5),
                (6, 0),
                (1, 5),
                (6, 3),
                (5, 3),
            ],
            &[0, 1, 2, 1, 4, 1, 6],
        ),
        (
            9,
            &[
                (0, 6),
                (7, 3),
                (1, 0),
                (1, 1),
                (4, 5),
                (6, 1),
                (0, 4),
                (0, 8),
                (1, 4),
                (1, 2),
                (5, 5),
            ],
            &[0, 0, 2, 3, 4, 5, 0, 7, 8],
        ),
        (
            8,
            &[
                (2, 5),
                (3, 5),
                (3, 1),
                (5, 7),
                (6, 7),
                (1, 6),
                (5, 3),
                (6, 7),
                (3, 4),
                (6, 2),
                (6, 0),
                (4, 7),
                (7, 4),
                (2, 6),
                (3, 7),
            ],
            &[0, 1, 1, 1, 4, 1, 1, 4],
        ),
    ];
    for (nodes, edges, firsts) in cases {
        let graph = graph_of(rt.alloc(), nodes, edges)?;
        let numbers = components(rt.alloc(), &graph)?;
        let found = first_of_each(rt.alloc(), &numbers)?;
        assert_eq!(rt; found.as_slice(), firsts, "at {nodes} nodes");
    }
    Ok(())
}

const LONG: usize = 200_000;

fn chain(alloc: Global) -> Result<Graph, NoMemory> {
    let mut graph = Graph::new(alloc, LONG)?;
    for node in 1..LONG {
        if node < graph.len() {
            graph.add_edge(node - 1, node)?;
        }
    }
    Ok(graph)
}

#[test]
fn a_long_chain_has_a_component_a_node(rt: HostRuntime) -> Result<(), Fail> {
    let numbers = components(rt.alloc(), &chain(rt.alloc())?)?;
    let mut last = LONG;
    for number in &numbers {
        assert!(rt; *number < last);
        last = *number;
    }
    assert_eq!(rt; numbers.len(), LONG);
    Ok(())
}

#[test]
fn a_long_ring_is_one_component(rt: HostRuntime) -> Result<(), Fail> {
    let mut graph = chain(rt.alloc())?;
    assert!(rt; LONG <= graph.len());
    graph.add_edge(LONG - 1, 0)?;
    let numbers = components(rt.alloc(), &graph)?;
    assert!(rt; numbers.iter().all(|number| Some(number) == numbers.first()));
    Ok(())
}

#[test]
fn targets_stand_as_they_were_added(rt: HostRuntime) -> Result<(), Fail> {
    let graph = graph_of(rt.alloc(), 3, &[(1, 2), (0, 1), (1, 0), (1, 2)])?;
    assert!(rt; 3 <= graph.len());
    assert_eq!(rt; graph.targets(1), [2, 0, 2].as_slice());
    Ok(())
}
