//! Worked layouts of one bar or square to a piece, by a rule of 30.
ghost use Rattle.std.specs.Prelude.{◌<◌, ◌≤◌, length};

use crate::bars::{Corners, SPACING, features_of};
use dpl_base::{Edge, Id, Spacing, WideRect};
use dpl_crowd::Crowd;
use dpl_edges::{all_conflicts_by, all_edges, edges_of};
use dpl_slabs::Parts;
use dpl_tile::{Plan, plan};
use std::alloc::{AllocError, Global};
use std::test::Fail;
use std::thread::Threads;

/// Three squares, each near both others.
const TRIANGLE: [Corners; 3] = [(0, 0, 10, 10), (20, 0, 30, 10), (10, 20, 20, 30)];

/// A layout, the feature of each of its pieces, and the pairs of pieces that conflict.
static ROWS: [(&[Corners], &[Id], &[Edge]); 8] = [
    // bars 29 rows apart, and 30
    (&[(0, 0, 100, 20), (0, 49, 100, 69)], &[0, 1], &[(0, 1)]),
    (&[(0, 0, 100, 20), (0, 50, 100, 70)], &[0, 1], &[]),
    // corners 18 and 23 apart, and 18 and 24
    (&[(0, 0, 10, 10), (28, 33, 38, 43)], &[0, 1], &[(0, 1)]),
    (&[(0, 0, 10, 10), (28, 34, 38, 44)], &[0, 1], &[]),
    // three features, and two pieces of one feature with a third near both
    (&TRIANGLE, &[0, 1, 2], &[(0, 1), (0, 2), (1, 2)]),
    (&TRIANGLE, &[0, 0, 1], &[(0, 2), (1, 2)]),
    // a cross of three slabs near a bar along two of them
    (
        &[
            (10, 0, 20, 10),
            (0, 10, 30, 20),
            (10, 20, 20, 30),
            (40, 0, 50, 30),
        ],
        &[0, 1],
        &[(0, 1)],
    ),
    (&[], &[], &[]),
];

/// Whether a plan has just these conflicts.
fn are_conflicts(alloc: Global, plan: &Plan, want: &[Edge]) -> Result<bool, AllocError> {
    let found = all_edges(alloc, plan)?;
    Ok(found.as_slice() == want)
}

/// Whether pieces of these features have just these conflicts.
fn have_conflicts(
    alloc: Global,
    pieces: &Parts,
    owner: &[Id],
    spacing: Spacing,
    want: &[Edge],
) -> Result<bool, AllocError>
    requires corner { spacing.corner ≤ spacing.rule }
{
    if pieces.items().len() != owner.len() {
        return Ok(false);
    }
    let plan = plan(alloc, pieces, owner, spacing, 16)?;
    are_conflicts(alloc, &plan, want)
}

/// Whether a layout whose pieces are of these features has just these conflicts.
pub fn has_conflicts(
    alloc: Global,
    rects: &[Corners],
    owner: &[Id],
    spacing: Spacing,
    want: &[Edge],
) -> Result<bool, AllocError>
    requires corner { spacing.corner ≤ spacing.rule }
{
    let pieces = features_of(alloc, rects)?;
    have_conflicts(alloc, &pieces, owner, spacing, want)
}

#[test]
fn finds_the_conflicts(rt: HostRuntime) {
    for &(rects, owner, want) in &ROWS {
        assert!(rt; has_conflicts(rt.alloc(), rects, owner, SPACING, want) == Ok(true));
    }
}

/// Whether so many workers find just these conflicts of pieces of these features, without a plan.
fn have_conflicts_by<R: Threads + Sync>(
    rt: &R,
    alloc: Global,
    pieces: &Parts,
    owner: &[Id],
    want: &[Edge],
    workers: u32,
) -> Result<bool, AllocError> {
    if pieces.items().len() != owner.len() || workers < 1 {
        return Ok(false);
    }
    let found = all_conflicts_by(rt, alloc, pieces, owner, SPACING, workers)?;
    Ok(found.as_slice() == want)
}

/// Whether so many workers find just these conflicts of a layout.
fn has_conflicts_by<R: Threads + Sync>(
    rt: &R,
    alloc: Global,
    rects: &[Corners],
    owner: &[Id],
    want: &[Edge],
    workers: u32,
) -> Result<bool, AllocError> {
    let pieces = features_of(alloc, rects)?;
    have_conflicts_by(rt, alloc, &pieces, owner, want, workers)
}

#[test]
fn workers_find_the_same_conflicts(rt: HostRuntime) {
    for &(rects, owner, want) in &ROWS {
        for &workers in &[1, 2, 4] {
            let is_same = has_conflicts_by(&rt, rt.alloc(), rects, owner, want, workers);
            assert!(rt; is_same == Ok(true));
        }
    }
}

/// Whether searches near single pieces of a crowd find this cycle; empty where they find none.
fn is_first_cycle(alloc: Global, crowd: &Crowd, want: &[Id]) -> Result<bool, AllocError> {
    match crowd.first_cycle(alloc)? {
        Some(cycle) => Ok(cycle.as_slice() == want),
        None => Ok(want.is_empty()),
    }
}

/// Whether searches near single pieces of these features find this cycle.
fn is_cycle(alloc: Global, pieces: &Parts, owner: &[Id], want: &[Id]) -> Result<bool, AllocError> {
    if pieces.items().len() != owner.len() {
        return Ok(false);
    }
    let crowd = Crowd::of(alloc, pieces, owner, SPACING)?;
    is_first_cycle(alloc, &crowd, want)
}

/// Whether searches near single pieces find this cycle in a layout whose pieces are of these features.
fn has_cycle(
    alloc: Global,
    rects: &[Corners],
    owner: &[Id],
    want: &[Id],
) -> Result<bool, AllocError> {
    let pieces = features_of(alloc, rects)?;
    is_cycle(alloc, &pieces, owner, want)
}

#[test]
fn a_cycle_is_found_near_the_first_piece(rt: HostRuntime) {
    let odd = has_cycle(rt.alloc(), &TRIANGLE, &[0, 1, 2], &[0, 1, 2]);
    assert!(rt; odd == Ok(true));
    let even = has_cycle(rt.alloc(), &TRIANGLE, &[0, 0, 1], &[]);
    assert!(rt; even == Ok(true));
}

/// Whether the cell of one square is one of four that are near the other piece.
fn is_near_the_other(cell: &WideRect) -> bool {
    if cell.y0() == 9 {
        return cell.x0() == 8 || cell.x0() == 9;
    }
    cell.y0() == 33 && (cell.x0() == 28 || cell.x0() == 29)
}

/// The conflict of both squares.
const NEAR: [Edge; 1] = [(0, 1)];

/// Whether a tile finds the conflict just where its cell is near the other piece.
fn finds_its_own(alloc: Global, plan: &Plan, tile: u32) -> Result<bool, AllocError>
    requires { tile < length plan.now.cells }
{
    let found = edges_of(alloc, plan, tile)?;
    if is_near_the_other(&plan.cell(tile)) {
        return Ok(found.as_slice() == NEAR.as_slice());
    }
    Ok(found.is_empty())
}

/// How many cells of a plan are near the other piece.
fn near_cells(plan: &Plan) -> u32 {
    let mut near = 0u32;
    for tile in 0..plan.tiles() {
        if is_near_the_other(&plan.cell(tile)) {
            near = near.wrapping_add(1);
        }
    }
    near
}

/// Whether each tile of a plan finds its own.
fn all_find_their_own(alloc: Global, plan: &Plan) -> Result<bool, AllocError> {
    for tile in 0..plan.tiles() {
        if !finds_its_own(alloc, plan, tile)? {
            return Ok(false);
        }
    }
    Ok(true)
}

/// Whether 200 tiles are laid over two pieces, of which four are near the other piece, and each finds its own conflicts.
fn have_tiles_near(alloc: Global, pieces: &Parts) -> Result<bool, AllocError> {
    if pieces.items().len() != 2 {
        return Ok(false);
    }
    let plan = plan(alloc, pieces, &[0, 1], SPACING, 1)?;
    if plan.tiles() != 200 || near_cells(&plan) != 4 {
        return Ok(false);
    }
    all_find_their_own(alloc, &plan)
}

#[test]
fn tiles_find_their_conflicts(rt: HostRuntime) -> Result<(), Fail> {
    let pieces = features_of(rt.alloc(), &[(0, 0, 10, 10), (28, 33, 38, 43)])?;
    assert!(rt; have_tiles_near(rt.alloc(), &pieces) == Ok(true));
    Ok(())
}
