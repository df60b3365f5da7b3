//! Worked graphs of several components, and the odd cycle of each that has one.
use dpl_list::{Edge, Id};
use dpl_odd::odd_cycles;
use dpl_stars::are_edges_below;
use std::alloc::{AllocError, Global};
use std::test::Fail;

/// Two triangles.
const APART: [Edge; 6] = [(0, 1), (0, 2), (1, 2), (3, 4), (3, 5), (4, 5)];

/// A square.
const SQUARE: [Edge; 4] = [(0, 1), (0, 3), (1, 2), (2, 3)];

/// A triangle, a square and a cycle of five.
const THREE: [Edge; 12] = [
    (0, 1),
    (0, 2),
    (1, 2),
    (3, 4),
    (3, 6),
    (4, 5),
    (5, 6),
    (7, 8),
    (7, 11),
    (8, 9),
    (9, 10),
    (10, 11),
];

/// How many numbers a graph has, its edges, and the odd cycle of each component that has one.
static CASES: [(Id, &[Edge], &[&[Id]]); 3] = [
    (6, &APART, &[&[0, 1, 2], &[3, 4, 5]]),
    (4, &SQUARE, &[]),
    (12, &THREE, &[&[0, 1, 2], &[7, 8, 9, 10, 11]]),
];

/// Whether edges between numbers below `n` have just these odd cycles, one after the other.
fn has_cycles(alloc: Global, n: Id, edges: &[Edge], want: &[&[Id]]) -> Result<bool, AllocError> {
    if !are_edges_below(n, edges) {
        return Ok(false);
    }
    let found = odd_cycles(alloc, n, edges)?;
    Ok(found.len() == want.len() && found.iter().zip(want).all(|(c, w)| c.items() == *w))
}

#[test]
fn each_component_has_its_cycle(rt: HostRuntime) -> Result<(), Fail> {
    for &(n, edges, want) in &CASES {
        assert!(rt; has_cycles(rt.alloc(), n, edges, want)?);
    }
    Ok(())
}
