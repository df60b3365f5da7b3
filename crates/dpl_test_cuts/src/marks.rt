//! Worked layouts with squares that are fixed to a mask.
use crate::bars::{BARS, Corners, SPACING, features_of, set_of};
use crate::zones::are_zones;
use dpl_base::{Edge, Zone};
use dpl_edges::{mark_edges, shifted};
use dpl_slabs::Parts;
use dpl_zone::zones;
use std::alloc::{AllocError, Global};

/// The zone of the bars, in the columns from 74 on, between the upper two.
const ZONE: (Corners, u64) = ((74, 0, 84, 20), 0);

/// A square with neighbours at two corners: of its two zones, one across the other, the vertical one is dropped.
const CROSSED: [Corners; 3] = [(0, 0, 20, 20), (-10, -10, 0, 0), (20, 20, 30, 30)];

/// One bar, and two, one above the other.
const ONE: [Corners; 1] = [(0, 0, 100, 20)];

const TWO: [Corners; 2] = [(0, 0, 100, 20), (0, 49, 100, 69)];

/// Whether a layout has just these zones where these squares are marked.
fn leaves(
    alloc: Global,
    rects: &[Corners],
    marks: &[Corners],
    want: &[(Corners, u64)],
) -> Result<bool, AllocError> {
    let found = zones_with_marks(alloc, rects, marks)?;
    Ok(are_zones(found.as_slice(), want))
}

/// The zones of a layout where these squares are marked.
fn zones_with_marks(
    alloc: Global,
    rects: &[Corners],
    marks: &[Corners],
) -> Result<Vec<Zone>, AllocError> {
    let parts = features_of(alloc, rects)?;
    let marked = set_of(alloc, marks)?;
    zones(alloc, &parts, SPACING, 10, &marked)
}

/// A layout, marked squares, and its zones with the features that they cut.
static LEFT: [(&[Corners], &[Corners], &[(Corners, u64)]); 5] = [
    (&BARS, &[], &[ZONE]),
    // a square of the zone, and squares beside it, below it and of other features
    (&BARS, &[(80, 5, 81, 6)], &[]),
    (
        &BARS,
        &[
            (73, 0, 74, 20),
            (84, 0, 85, 20),
            (74, -1, 84, 0),
            (0, 40, 9, 60),
        ],
        &[ZONE],
    ),
    // a vertical zone that touches a marked horizontal one goes with it
    (&CROSSED, &[], &[((5, 0, 15, 20), 0)]),
    (&CROSSED, &[(5, 0, 6, 1)], &[]),
];

#[test]
fn marked_zones_are_dropped(rt: HostRuntime) {
    for &(rects, marks, want) in &LEFT {
        assert!(rt; leaves(rt.alloc(), rects, marks, want) == Ok(true));
    }
}

/// Whether bars, each a piece, have just these edges of marks.
fn joins(
    alloc: Global,
    bars: &[Corners],
    a: &[Corners],
    b: &[Corners],
    want: &[Edge],
) -> Result<bool, AllocError> {
    let pieces = features_of(alloc, bars)?;
    let edges = edges_of_marks(alloc, &pieces, a, b)?;
    Ok(edges.as_slice() == want)
}

/// The edges of marks of some pieces.
fn edges_of_marks(
    alloc: Global,
    pieces: &Parts,
    a: &[Corners],
    b: &[Corners],
) -> Result<Vec<Edge>, AllocError> {
    let on_a = set_of(alloc, a)?;
    let on_b = set_of(alloc, b)?;
    mark_edges(alloc, pieces, &on_a, &on_b)
}

/// Bars, squares that are fixed to mask A and to mask B, and the edges of these marks.
static JOINED: [(&[Corners], &[Corners], &[Corners], &[Edge]); 5] = [
    (&TWO, &[], &[], &[(0, 1)]),
    (&TWO, &[], &[(0, 50, 1, 51)], &[(0, 1), (0, 3)]),
    (
        &TWO,
        &[(0, 0, 1, 1), (0, 49, 1, 50)],
        &[],
        &[(0, 1), (1, 2), (1, 3)],
    ),
    (
        &ONE,
        &[(0, 0, 1, 1)],
        &[(0, 0, 1, 1)],
        &[(0, 1), (0, 2), (1, 2)],
    ),
    // marks beside the bars fix nothing
    (&TWO, &[(0, 20, 1, 21)], &[(100, 0, 101, 20)], &[(0, 1)]),
];

/// Whether the edges of bars become these where there are anchors.
fn are_shifted(alloc: Global, edges: &[Edge], want: &[Edge]) -> Result<bool, AllocError> {
    let moved = shifted(alloc, edges)?;
    Ok(moved.as_slice() == want)
}

#[test]
fn marks_join_pieces_to_the_other_anchor(rt: HostRuntime) {
    for &(bars, a, b, want) in &JOINED {
        assert!(rt; joins(rt.alloc(), bars, a, b, want) == Ok(true));
    }
    assert!(rt; are_shifted(rt.alloc(), &[(0, 1), (0, 5)], &[(2, 3), (2, 7)]) == Ok(true));
}
