//! Summaries of edges, and of two summaries together.
ghost use Rattle.std.specs.Prelude.{◌<◌};
ghost use Rattle.dpl_stars.specs.Sums.{AreEdgePairs};

use crate::jobs::has_rows;
use dpl_list::{Edge, Id};
use dpl_stars::{Joined, Star, merge, stars};
use std::alloc::{AllocError, Global};
use std::test::Fail;

/// The summaries of two lists of edges together.
fn both(alloc: Global, edges: &[Edge], more: &[Edge]) -> Result<Joined, AllocError>
    requires edges { AreEdgePairs edges.now }
    requires more { AreEdgePairs more.now }
{
    let first = stars(alloc, edges)?;
    let second = stars(alloc, more)?;
    merge(alloc, &first, &second)
}

/// The summaries of two steps and of an edge together.
fn after_path(alloc: Global, edge: Edge) -> Result<Joined, AllocError>
    requires { edge.0 < edge.1 }
{
    both(alloc, &[(0, 1), (1, 2)], &[edge])
}

/// The rows of the pieces 0 to 3, one after the other.
static PATH: [(Id, Id, bool); 4] = [(0, 0, false), (1, 0, true), (2, 0, false), (3, 0, true)];

#[test]
fn two_steps_are_even_and_a_chord_makes_them_odd(rt: HostRuntime) -> Result<(), Fail> {
    let path = stars(rt.alloc(), &[(0, 1), (1, 2)])?;
    assert!(rt; has_rows(&path, &PATH[..3]));
    assert!(rt; after_path(rt.alloc(), (0, 2))?.is_odd());
    assert!(rt; has_rows(&after_path(rt.alloc(), (2, 3))?, &PATH));
    Ok(())
}

/// Pieces, and the rows that are found of them.
static FOUND: [(Id, Option<Star>); 3] = [
    (
        4,
        Some(Star {
            piece: 4,
            root: 3,
            odd: false,
        }),
    ),
    (
        20,
        Some(Star {
            piece: 20,
            root: 10,
            odd: true,
        }),
    ),
    (5, None),
];

/// A copy of a summary of three edges.
fn copied(alloc: Global) -> Result<Joined, AllocError> {
    let joined = stars(alloc, &[(3, 9), (4, 9), (10, 20)])?;
    joined.copy(alloc)
}

/// Whether a summary without an odd cycle has the rows that are to be found.
fn are_found(joined: &Joined) -> bool {
    let Joined::Stars(rows) = joined else {
        return false;
    };
    for &(piece, want) in &FOUND {
        if rows.find(piece) != want {
            return false;
        }
    }
    true
}

#[test]
fn rows_are_found_and_copied(rt: HostRuntime) -> Result<(), Fail> {
    assert!(rt; are_found(&copied(rt.alloc())?));
    assert!(rt; has_rows(&Joined::new(rt.alloc()), &[]));
    assert!(rt; stars(rt.alloc(), &[(0, 1), (1, 2), (0, 2)])?.is_odd());
    Ok(())
}

/// Four pieces that lie close together or far apart, each above the one before it.
static PIECES: [[Id; 4]; 6] = [
    [0, 1, 2, 3],
    [7, 9, 20, 37],
    [7, 9, 20, 39],
    [0, 4_000_000, 4_000_001, 5_000_000_000],
    [0, 1, 2, u64::MAX],
    [u64::MAX - 5, u64::MAX - 3, u64::MAX - 2, u64::MAX],
];

/// Whether a summary has the rows of four pieces, one after the other.
fn are_along(joined: &Joined, a: Id, b: Id, c: Id, d: Id) -> bool {
    has_rows(
        joined,
        &[(a, a, false), (b, a, true), (c, a, false), (d, a, true)],
    )
}

/// Whether a path is summed up.
fn is_path(alloc: Global, a: Id, b: Id, c: Id, d: Id) -> Result<bool, AllocError>
    requires { (a < b) × (b < c) × (c < d) }
{
    let found = stars(alloc, &[(a, b), (b, c), (c, d)])?;
    Ok(are_along(&found, a, b, c, d))
}

/// Whether a path is summed up with its last step once more.
fn is_path_again(alloc: Global, a: Id, b: Id, c: Id, d: Id) -> Result<bool, AllocError>
    requires { (a < b) × (b < c) × (c < d) }
{
    let found = both(alloc, &[(a, b), (b, c), (c, d)], &[(c, d)])?;
    Ok(are_along(&found, a, b, c, d))
}

/// Whether edges from three pieces to the last one are summed up.
fn is_spread(alloc: Global, a: Id, b: Id, c: Id, d: Id) -> Result<bool, AllocError>
    requires { (a < b) × (b < c) × (c < d) }
{
    let found = both(alloc, &[(a, d), (b, d)], &[(c, d)])?;
    Ok(has_rows(
        &found,
        &[(a, a, false), (b, a, false), (c, a, false), (d, a, true)],
    ))
}

/// Whether a path and edges to its last piece have an odd cycle, from b to d by two ways.
fn is_odd(alloc: Global, a: Id, b: Id, c: Id, d: Id) -> Result<bool, AllocError>
    requires { (a < b) × (b < c) × (c < d) }
{
    let found = both(alloc, &[(a, b), (b, c), (c, d)], &[(a, d), (b, d)])?;
    Ok(found.is_odd())
}

#[test]
fn pieces_may_lie_close_together_or_far_apart(rt: HostRuntime) -> Result<(), Fail> {
    for &[a, b, c, d] in &PIECES {
        assert!(rt; a < b && b < c && c < d);
        assert!(rt; is_path(rt.alloc(), a, b, c, d)?);
        assert!(rt; is_path_again(rt.alloc(), a, b, c, d)?);
        assert!(rt; is_spread(rt.alloc(), a, b, c, d)?);
        assert!(rt; is_odd(rt.alloc(), a, b, c, d)?);
    }
    Ok(())
}
