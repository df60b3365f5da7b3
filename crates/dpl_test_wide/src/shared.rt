//! What is near in plans, and zones for which several workers find it.
use dpl_base::{Id, Rect, Zone};
use dpl_feature::features;
use dpl_slabs::{Parts, Slabs};
use dpl_test_cuts::{Corners, SPACING, set_of};
use dpl_tile::plan;
use dpl_zone::{zones, zones_by};
use std::alloc::{AllocError, Global};
use std::thread::Threads;

/// How many squares stand in a row, and how many rows of them there are.
const COUNT: u8 = 20;

/// How many pairs of these squares stand side by side, one above the other, or with one corner each towards the other.
const PAIRS: usize = 1482;

/// Squares with sides of 10, of which those beside one another have 15 columns or rows between them.
fn squares(alloc: Global) -> Result<Vec<Corners>, AllocError> {
    let mut rects = Vec::new(alloc);
    for row in 0..COUNT {
        for column in 0..COUNT {
            let (x, y) = (25 * column as i32, 25 * row as i32);
            rects.push((x, y, x + 10, y + 10))?;
        }
    }
    Ok(rects)
}

/// The features of a layer.
fn features_of(alloc: Global, rects: &[Corners]) -> Result<Parts, AllocError> {
    let layer = set_of(alloc, rects)?;
    features(alloc, &layer)
}

/// How many meetings pieces that have one owner each have in one tile.
fn count_in_one_tile(
    alloc: Global,
    pieces: &Parts,
    owner: &[Id],
) -> Result<Option<usize>, AllocError> {
    if pieces.items().len() != owner.len() {
        return Ok(None);
    }
    let plan = plan(alloc, pieces, owner, SPACING, 1 << 30)?;
    Ok(Some(plan.meetings().len()))
}

/// An owner for each of the squares.
fn owners(alloc: Global) -> Result<Vec<Id>, AllocError> {
    let mut owners = Vec::new(alloc);
    for owner in 0..400u64 {
        owners.push(owner)?;
    }
    Ok(owners)
}

/// How many meetings the squares have in one tile.
fn count_of_squares(alloc: Global) -> Result<Option<usize>, AllocError> {
    let rects = squares(alloc)?;
    let pieces = features_of(alloc, &rects)?;
    let owners = owners(alloc)?;
    count_in_one_tile(alloc, &pieces, &owners)
}

#[test]
fn a_plan_has_each_pair_once(rt: HostRuntime) {
    assert!(rt; count_of_squares(rt.alloc()) == Ok(Some(PAIRS)));
}

/// How often the bars are repeated: so often that workers share them.
const TIMES: u16 = 3000;

/// A long bar, and two that stand over its ends, or, where it is upright, beside them, far above those before them.
fn bars_at(k: u16, is_upright: bool) -> [Corners; 3] {
    let y = 1000 * k as i32;
    if is_upright {
        return [
            (0, y, 20, y + 158),
            (40, y, 60, y + 50),
            (40, y + 108, 60, y + 158),
        ];
    }
    [
        (0, y, 158, y + 20),
        (0, y + 40, 50, y + 60),
        (108, y + 40, 158, y + 60),
    ]
}

/// The bars again and again.
fn bars(alloc: Global, are_upright: bool) -> Result<Vec<Corners>, AllocError> {
    let mut rects = Vec::new(alloc);
    for k in 0..TIMES {
        rects.extend_from_slice(&bars_at(k, are_upright))?;
    }
    Ok(rects)
}

/// The zone in a long bar, which is the first of three features.
fn zone_at(k: u16, is_upright: bool) -> Zone {
    let y = 1000 * k as i32;
    let (x0, y0, x1, y1) = if is_upright {
        (0, y + 74, 20, y + 84)
    } else {
        (74, y, 84, y + 20)
    };
    Zone {
        rect: Rect { x0, y0, x1, y1 },
        feature: 3 * u64::from(k),
    }
}

/// The zones in the long bars, in order.
fn in_long_bars(alloc: Global, are_upright: bool) -> Result<Vec<Zone>, AllocError> {
    let mut zones = Vec::new(alloc);
    for k in 0..TIMES {
        zones.push(zone_at(k, are_upright))?;
    }
    Ok(zones)
}

/// Whether so many workers find just these zones of parts, one after the other.
fn find<R: Threads + Sync>(
    rt: &R,
    alloc: Global,
    parts: &Parts,
    workers: u32,
    want: &[Zone],
) -> Result<bool, AllocError> {
    let zones = zones_by(rt, alloc, parts, SPACING, 10, &Slabs::empty(alloc), workers)?;
    Ok(zones.as_slice() == want)
}

/// Whether so many workers find the zones in the long bars.
fn find_in_bars<R: Threads + Sync>(
    rt: &R,
    alloc: Global,
    are_upright: bool,
    workers: u32,
) -> Result<bool, AllocError> {
    let rects = bars(alloc, are_upright)?;
    let parts = features_of(alloc, &rects)?;
    let want = in_long_bars(alloc, are_upright)?;
    find(rt, alloc, &parts, workers, &want)
}

/// Whether the long bars are upright, and how many workers find their zones. What stands over flat bars is found in one strip, what stands beside upright ones in each of many.
static FOUND: [(bool, u32); 8] = [
    (false, 1),
    (false, 2),
    (false, 4),
    (false, 64),
    (true, 1),
    (true, 2),
    (true, 4),
    (true, 64),
];

#[test]
fn workers_find_the_same_zones(rt: HostRuntime) {
    for &(are_upright, workers) in &FOUND {
        let are_same = find_in_bars(&rt, rt.alloc(), are_upright, workers) == Ok(true);
        assert!(rt; are_same, "by {workers} workers");
    }
}

/// How many rungs the ladder has: so many that workers share its columns.
const RUNGS: u16 = 8200;

/// How many zones it has: one in each rung, and two between a rung and the next.
const ZONES: usize = 24_598;

/// A ladder, which is one feature.
fn ladder(alloc: Global) -> Result<Vec<Corners>, AllocError> {
    let top = 100 * RUNGS as i32;
    let mut rects = Vec::new(alloc);
    rects.extend_from_slice(&[(0, 0, 20, top), (158, 0, 178, top)])?;
    for k in 0..RUNGS {
        let y = 100 * k as i32;
        rects.push((20, y + 40, 158, y + 60))?;
    }
    Ok(rects)
}

/// Whether so many workers find the zones of the ladder that one finds.
fn find_in_ladder<R: Threads + Sync>(
    rt: &R,
    alloc: Global,
    workers: u32,
) -> Result<bool, AllocError> {
    let rects = ladder(alloc)?;
    let parts = features_of(alloc, &rects)?;
    let alone = zones(alloc, &parts, SPACING, 10, &Slabs::empty(alloc))?;
    let are_same = find(rt, alloc, &parts, workers, &alone)?;
    Ok(are_same && alone.len() == ZONES)
}

/// How many workers find them.
static WORKERS: [u32; 2] = [2, 4];

#[test]
fn workers_find_the_zones_of_one_feature(rt: HostRuntime) {
    for &workers in &WORKERS {
        let are_same = find_in_ladder(&rt, rt.alloc(), workers) == Ok(true);
        assert!(rt; are_same, "by {workers} workers");
    }
}
