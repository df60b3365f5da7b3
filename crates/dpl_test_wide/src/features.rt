//! Features of small layers, found by workers, and the same found by one.

use dpl_feature::features;
use dpl_pool::{Gate, OpenGate};
use dpl_slabs::Parts;
use dpl_test_cuts::{Corners, set_of};
use dpl_test_gates::Holds;
use dpl_wide::features_by;
use std::alloc::{AllocError, Global};
use std::sync::Wait;
use std::test::*;
use std::thread::Threads;

/// One bar, which two tiles of side 5 meet.
const BAR: [Corners; 1] = [(0, 0, 10, 5)];

/// A ring of four bars.
const RING: [Corners; 4] = [(0, 0, 8, 2), (0, 2, 2, 6), (6, 2, 8, 6), (0, 6, 8, 8)];

/// Two combs whose teeth lie between one another, and a square in a gap.
const COMBS: [Corners; 8] = [
    (0, 0, 13, 1),
    (0, 1, 1, 8),
    (6, 1, 7, 8),
    (12, 1, 13, 8),
    (3, 3, 4, 10),
    (9, 3, 10, 10),
    (3, 10, 10, 11),
    (15, 4, 16, 5),
];

/// A layer, the side of a tile, how many workers there are, and how many features they find.
static ROWS: [(&[Corners], u32, u32, usize); 12] = [
    (&[], 4, 1, 0),
    (&BAR, 5, 1, 1),
    (&BAR, 5, 2, 1),
    (&BAR, 1, 64, 1),
    // a column apart
    (&[(0, 0, 4, 4), (5, 0, 9, 4)], 3, 2, 2),
    // a corner alone is shared, at the corner of four tiles
    (&[(0, 0, 4, 4), (4, 4, 8, 8)], 4, 2, 1),
    (&[(4, 0, 8, 4), (0, 4, 4, 8)], 4, 3, 1),
    (&RING, 3, 2, 1),
    (&RING, 1, 64, 1),
    (&COMBS, 2, 4, 3),
    (&COMBS, 1, 64, 3),
    (&COMBS, 1_073_741_824, 2, 3),
];

/// Whether two lists have the same sets, one after the other.
fn are_same(parts: &Parts, others: &Parts) -> bool {
    let (sets, others) = (parts.items(), others.items());
    if sets.len() != others.len() {
        return false;
    }
    for k in 0..sets.len() {
        if !sets[k].equal(&others[k]) {
            return false;
        }
    }
    true
}

/// How many features workers find at a gate, where they are those that one finds; None where they aren't, or for no tile or no number of workers.
fn found<R: Threads + Wait + Sync, G: Gate + Sync>(
    rt: &R,
    alloc: Global,
    rects: &[Corners],
    tile: u32,
    workers: u32,
    gate: &G,
) -> Result<Option<usize>, AllocError> {
    if tile < 1 || workers < 1 || workers > 64 {
        return Ok(None);
    }
    let layer = set_of(alloc, rects)?;
    let parts = features_by(rt, alloc, &layer, tile, workers, gate)?;
    if !are_same(&parts, &features(alloc, &layer)?) {
        return Ok(None);
    }
    Ok(Some(parts.items().len()))
}

/// Whether workers find the features of a layer that one finds, and so many.
fn are_found<R: Threads + Wait + Sync>(
    rt: &R,
    alloc: Global,
    rects: &[Corners],
    tile: u32,
    workers: u32,
    count: usize,
) -> Result<bool, AllocError> {
    let features = found(rt, alloc, rects, tile, workers, &OpenGate)?;
    Ok(features == Some(count))
}

#[test]
fn workers_find_the_features_that_one_finds(rt: HostRuntime) {
    for &(rects, tile, workers, count) in &ROWS {
        let is_right = are_found(&rt, rt.alloc(), rects, tile, workers, count) == Ok(true);
        assert!(rt;
            is_right,
            "{count} by {workers} workers, with tiles of {tile}"
        );
    }
}

/// Tiles that are held, and the others that they are held for, until these have come, or, as said, were posted.
static HELD: [(u32, u32, bool); 4] = [(0, 1, false), (1, 0, false), (0, 1, true), (1, 0, true)];

/// Whether two workers find one feature in the bar while a tile is held, and the other is not waited for in vain.
fn is_found_once<R: Threads + Wait + Sync>(
    rt: &R,
    alloc: Global,
    held: u32,
    other: u32,
    waits_for_post: bool,
) -> Result<bool, AllocError> {
    let gate = Holds::new(held, other, waits_for_post);
    let count = found(rt, alloc, &BAR, 5, 2, &gate)?;
    Ok(count == Some(1) && !gate.has_given_up())
}

#[test]
fn a_bar_on_two_tiles_is_one_feature_whichever_is_held(rt: HostRuntime) {
    for &(held, other, waits_for_post) in &HELD {
        let is_right = is_found_once(&rt, rt.alloc(), held, other, waits_for_post) == Ok(true);
        assert!(rt; is_right, "tile {held} is held");
    }
}
