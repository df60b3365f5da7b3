//! Worked graphs, and the odd cycles that are reported of them.
use dpl_list::{Edge, Id};
use dpl_odd::odd_cycle;
use dpl_stars::are_edges_below;
use std::alloc::{AllocError, Global};
use std::test::Fail;

/// How many numbers a graph has, its edges, and the cycle; empty where there is none.
static CASES: [(Id, &[Edge], &[Id]); 8] = [
    (
        5,
        &[(0, 1), (0, 4), (1, 2), (2, 3), (3, 4)],
        &[0, 1, 2, 3, 4],
    ),
    (5, &[(0, 1), (0, 4), (1, 2), (3, 4)], &[]),
    (3, &[(0, 1), (0, 2), (1, 2)], &[0, 1, 2]),
    // the least of three level edges, whatever the order
    (
        4,
        &[(2, 3), (1, 3), (1, 2), (0, 3), (0, 2), (0, 1)],
        &[0, 1, 2],
    ),
    // the least neighbour is the parent, though another would meet sooner
    (
        5,
        &[(0, 1), (0, 2), (1, 3), (2, 3), (2, 4), (3, 4)],
        &[0, 1, 3, 4, 2],
    ),
    // of two components with an odd cycle the one with the least number
    (
        8,
        &[(5, 6), (5, 7), (6, 7), (0, 1), (2, 3), (3, 4), (2, 4)],
        &[2, 3, 4],
    ),
    // the edge that closes it lies far from the root
    (6, &[(0, 5), (1, 5), (1, 2), (1, 3), (2, 3)], &[1, 2, 3]),
    (0, &[], &[]),
];

/// Whether this is the odd cycle that is reported of edges between numbers below `n`; none where it is empty.
fn has_cycle(alloc: Global, n: Id, edges: &[Edge], want: &[Id]) -> Result<bool, AllocError> {
    if !are_edges_below(n, edges) {
        return Ok(false);
    }
    match odd_cycle(alloc, n, edges)? {
        Some(cycle) => Ok(cycle.as_slice() == want),
        None => Ok(want.is_empty()),
    }
}

#[test]
fn finds_the_cycle(rt: HostRuntime) -> Result<(), Fail> {
    for &(n, edges, want) in &CASES {
        assert!(rt; has_cycle(rt.alloc(), n, edges, want)?);
    }
    Ok(())
}
