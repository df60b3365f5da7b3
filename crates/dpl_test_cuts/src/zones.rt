//! Worked layouts, by a rule of 30 and an overlap of 10.
use crate::bars::{BARS, Corners, RING, SPACING, features_of};
use dpl_base::{FARTHEST, Spacing, Zone};
use dpl_slabs::Slabs;
use dpl_zone::zones;
use std::alloc::{AllocError, Global};

/// How far from 0 a coordinate may lie.
const FAR: i32 = FARTHEST as i32;

/// A bar between two others.
const BETWEEN: [Corners; 7] = [
    (0, 0, 400, 20),
    (0, 40, 50, 60),
    (0, 40, 20, 200),
    (0, 180, 190, 200),
    (350, 40, 400, 60),
    (380, 40, 400, 200),
    (215, 180, 400, 200),
];

/// A layout, and its zones with the features that they cut.
static ROWS: [(&[Corners], &[(Corners, u64)]); 11] = [
    // a bar between two others has a zone where neither comes near, and so have both others
    (
        &BETWEEN,
        &[
            ((195, 0, 205, 20), 0),
            ((0, 115, 20, 125), 1),
            ((380, 115, 400, 125), 2),
            ((97, 180, 107, 200), 1),
            ((295, 180, 305, 200), 2),
        ],
    ),
    // the shadows of two bars meet on a third
    (
        &[(0, 0, 400, 20), (0, 40, 190, 60), (215, 40, 400, 60)],
        &[],
    ),
    // a stretch of twelve columns, and one of eleven
    (&BARS, &[((74, 0, 84, 20), 0)]),
    (&[(0, 0, 157, 20), (0, 40, 50, 60), (107, 40, 157, 60)], &[]),
    // one square leaves eleven columns of a bar on each side, and twelve on the right
    (
        &[
            (0, 0, 118, 20),
            (0, 20, 20, 40),
            (98, 20, 118, 40),
            (54, 40, 64, 60),
        ],
        &[],
    ),
    (
        &[
            (0, 0, 119, 20),
            (0, 20, 20, 40),
            (99, 20, 119, 40),
            (54, 40, 64, 60),
        ],
        &[((88, 0, 98, 20), 0)],
    ),
    // squares that share a corner are one feature, without a stretch
    (&[(0, 0, 10, 10), (10, 10, 20, 20)], &[]),
    // a square with a hole
    (
        &RING,
        &[
            ((45, 0, 55, 40), 0),
            ((0, 45, 40, 55), 0),
            ((60, 45, 100, 55), 0),
            ((45, 60, 55, 100), 0),
        ],
    ),
    // a bar of a million columns, and one of all columns that a layer may have
    (
        &[
            (0, 0, 1_000_000, 20),
            (0, 40, 50, 60),
            (999_950, 40, 1_000_000, 60),
        ],
        &[((499_995, 0, 500_005, 20), 0)],
    ),
    (
        &[
            (-FAR, 0, FAR, 20),
            (-FAR, 40, -FAR + 50, 60),
            (FAR - 50, 40, FAR, 60),
        ],
        &[((-5, 0, 5, 20), 0)],
    ),
    (&[], &[]),
];

fn corners_of(z: &Zone) -> (Corners, u64) {
    ((z.rect.x0, z.rect.y0, z.rect.x1, z.rect.y1), z.feature)
}

/// Whether the zones are these, one after the other.
pub fn are_zones(found: &[Zone], want: &[(Corners, u64)]) -> bool {
    for (z, w) in found.iter().zip(want) {
        if corners_of(z) != *w {
            return false;
        }
    }
    found.len() == want.len()
}

/// The zones of a layout.
fn zones_of(alloc: Global, rects: &[Corners]) -> Result<Vec<Zone>, AllocError> {
    let parts = features_of(alloc, rects)?;
    zones(alloc, &parts, SPACING, 10, &Slabs::empty(alloc))
}

/// Whether a layout has just these zones, one after the other.
fn has_zones(
    alloc: Global,
    rects: &[Corners],
    want: &[(Corners, u64)],
) -> Result<bool, AllocError> {
    let found = zones_of(alloc, rects)?;
    Ok(are_zones(found.as_slice(), want))
}

#[test]
fn finds_the_zones(rt: HostRuntime) {
    for &(rects, want) in &ROWS {
        assert!(rt; has_zones(rt.alloc(), rects, want) == Ok(true));
    }
}

/// How many rungs the ladder has.
const RUNGS: u8 = 18;

/// A ladder: two rails, and rungs as far from one another as they are wide.
fn ladder(alloc: Global) -> Result<Vec<Corners>, AllocError> {
    let mut rects = vec![in alloc; (0, 0, 20, 700), (100, 0, 120, 700)]?;
    for k in 0..RUNGS {
        let low = 40 * k as i32;
        rects.push((20, low, 100, low + 20))?;
    }
    Ok(rects)
}

/// Its zones: one across each rung, and one across each rail between two rungs. Those across both rails and a rung touch the rung's own.
fn zones_of_ladder(alloc: Global) -> Result<Vec<(Corners, u64)>, AllocError> {
    let mut zones = vec![in alloc; ((55, 0, 65, 20), 0)]?;
    for k in 1..RUNGS {
        let low = 40 * k as i32;
        zones.extend_from_slice(&[
            ((0, low - 15, 20, low - 5), 0),
            ((100, low - 15, 120, low - 5), 0),
            ((55, low, 65, low + 20), 0),
        ])?;
    }
    Ok(zones)
}

/// Whether it has just these zones.
fn ladder_has_zones(alloc: Global) -> Result<bool, AllocError> {
    let rects = ladder(alloc)?;
    let want = zones_of_ladder(alloc)?;
    has_zones(alloc, rects.as_slice(), want.as_slice())
}

#[test]
fn finds_the_zones_of_a_ladder(rt: HostRuntime) {
    assert!(rt; ladder_has_zones(rt.alloc()) == Ok(true));
}

/// How far apart the features of a layout beside a crowd stay.
const WIDE: Spacing = Spacing {
    rule: 300,
    corner: 300,
};

/// A rectangle ten times as large.
fn ten_times(rect: &Corners) -> Corners {
    let (x0, y0, x1, y1) = *rect;
    (
        x0.saturating_mul(10),
        y0.saturating_mul(10),
        x1.saturating_mul(10),
        y1.saturating_mul(10),
    )
}

/// Adds a column of bars, which are near one another and those of the columns beside it.
fn add_column(rects: &mut Vec<Corners>, column: u8) -> Result<(), AllocError> {
    let left = 4_400 + 22 * column as i32;
    for row in 0..250u8 {
        let low = 7 * row as i32;
        rects.push((left, low, left + 20, low + 5))?;
    }
    Ok(())
}

/// The bar between two others, ten times as large, and beside it a crowd of so many columns of bars, which are near one another wherever a zone could stand.
fn beside_a_crowd(alloc: Global, columns: u8) -> Result<Vec<Corners>, AllocError> {
    let mut rects = Vec::new(alloc);
    for rect in &BETWEEN {
        rects.push(ten_times(rect))?;
    }
    for column in 0..columns {
        add_column(&mut rects, column)?;
    }
    Ok(rects)
}

/// The zones of a layout beside a crowd of so many columns.
fn zones_beside(alloc: Global, columns: u8) -> Result<Vec<Zone>, AllocError> {
    let rects = beside_a_crowd(alloc, columns)?;
    let parts = features_of(alloc, &rects)?;
    zones(alloc, &parts, WIDE, 10, &Slabs::empty(alloc))
}

/// Whether zones have the same corners, one after the other.
fn have_same_corners(zones: &[Zone], others: &[Zone]) -> bool {
    for (z, w) in zones.iter().zip(others) {
        if corners_of(z).0 != corners_of(w).0 {
            return false;
        }
    }
    zones.len() == others.len()
}

/// How many zones there are beside a crowd of so many columns, or None where they aren't those without a crowd.
fn count_beside(alloc: Global, columns: u8) -> Result<Option<usize>, AllocError> {
    let alone = zones_beside(alloc, 0)?;
    let crowded = zones_beside(alloc, columns)?;
    if !have_same_corners(crowded.as_slice(), alone.as_slice()) {
        return Ok(None);
    }
    Ok(Some(crowded.len()))
}

/// Of a crowded layer the few items with a zone are compared with all others, of another one near items are joined.
#[test]
fn a_crowd_has_no_zones(rt: HostRuntime) {
    assert!(rt; count_beside(rt.alloc(), 60) == Ok(Some(7)));
}
