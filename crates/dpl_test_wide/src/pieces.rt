//! Layers with their zones, and the pieces that these leave, found by workers.
use dpl_base::{Id, Pt, Zone};
use dpl_feature::features;
use dpl_piece::{Pieces, bare_pieces_by};
use dpl_slabs::Slabs;
use dpl_test_cuts::{BARS, Corners, RING, SPACING, set_of};
use dpl_zone::zones;
use std::alloc::{AllocError, Global};
use std::thread::Threads;

/// A square with a hole whose upper edge has a step, so that only what is below the hole is a stretch.
const STEPPED_RING: [Corners; 5] = [
    (0, 0, 100, 40),
    (0, 40, 40, 46),
    (60, 40, 100, 50),
    (0, 46, 50, 50),
    (0, 50, 100, 100),
];

/// A longer bar, and three that stand over its ends and its middle.
const THREE_OVER: [Corners; 4] = [
    (0, 0, 266, 20),
    (0, 40, 50, 60),
    (108, 40, 158, 60),
    (216, 40, 266, 60),
];

/// The bars, on end.
const UPRIGHT: [Corners; 3] = [(0, 0, 20, 158), (40, 0, 60, 50), (40, 108, 60, 158)];

/// A bar, and ten that stand over it, with a zone between any two neighbours.
const TEN_OVER: [Corners; 11] = [
    (0, 0, 1022, 20),
    (0, 40, 50, 60),
    (108, 40, 158, 60),
    (216, 40, 266, 60),
    (324, 40, 374, 60),
    (432, 40, 482, 60),
    (540, 40, 590, 60),
    (648, 40, 698, 60),
    (756, 40, 806, 60),
    (864, 40, 914, 60),
    (972, 40, 1022, 60),
];

/// The bars, the longer bar with those over it, and the square with a hole, one above the other.
const THREE_BROKEN: [Corners; 11] = [
    (0, 0, 158, 20),
    (0, 40, 50, 60),
    (108, 40, 158, 60),
    (0, 1000, 266, 1020),
    (0, 1040, 50, 1060),
    (108, 1040, 158, 1060),
    (216, 1040, 266, 1060),
    (0, 2000, 100, 2040),
    (0, 2040, 40, 2060),
    (60, 2040, 100, 2060),
    (0, 2060, 100, 2100),
];

/// The pieces of a layer by a rule of 30 and an overlap of 10, found by so many workers.
fn cut_by<R: Threads + Sync>(
    rt: &R,
    alloc: Global,
    layer: &[Corners],
    workers: u32,
) -> Result<Pieces, AllocError> {
    let layer = set_of(alloc, layer)?;
    let features = features(alloc, &layer)?;
    let zones = zones(alloc, &features, SPACING, 10, &Slabs::empty(alloc))?;
    let pieces = bare_pieces_by(rt, alloc, features, zones, workers)?;
    pieces.completed(alloc)
}

/// Whether the pieces have just these keys, one after the other.
fn has_keys(cut: &Pieces, want: &[(i64, i64)]) -> bool {
    let count = cut.parts().items().len();
    if count != want.len() {
        return false;
    }
    for k in 0..count {
        let (x, y) = want[k];
        if cut.key(k) != (Pt { x, y }) {
            return false;
        }
    }
    true
}

/// The corners of a zone.
fn corners_of(zone: &Zone) -> Corners {
    let r = &zone.rect;
    (r.x0, r.y0, r.x1, r.y1)
}

/// Whether the zones have these corners, one after the other.
fn has_zones(cut: &Pieces, corners: &[Corners]) -> bool {
    let zones = cut.zones();
    if zones.len() != corners.len() {
        return false;
    }
    for k in 0..zones.len() {
        if corners_of(&zones[k]) != corners[k] {
            return false;
        }
    }
    true
}

/// A layer by what is tried with it, its zones, and the keys, the features and the sides of its pieces.
struct Layer {
    what: &'static str,
    rects: &'static [Corners],
    zones: &'static [Corners],
    keys: &'static [(i64, i64)],
    owner: &'static [Id],
    sides: &'static [(Id, Id)],
}

static LAYERS: [Layer; 7] = [
    Layer {
        what: "a bar",
        rects: &BARS,
        zones: &[(74, 0, 84, 20)],
        keys: &[(0, 0), (84, 0), (0, 40), (108, 40)],
        owner: &[0, 0, 1, 2],
        sides: &[(0, 1)],
    },
    Layer {
        what: "a square with a hole",
        rects: &RING,
        zones: &[
            (45, 0, 55, 40),
            (0, 45, 40, 55),
            (60, 45, 100, 55),
            (45, 60, 55, 100),
        ],
        keys: &[(0, 0), (55, 0), (0, 55), (60, 55)],
        owner: &[0, 0, 0, 0],
        sides: &[(0, 1), (0, 2), (1, 3), (2, 3)],
    },
    Layer {
        what: "two zones share a piece",
        rects: &THREE_OVER,
        zones: &[(74, 0, 84, 20), (182, 0, 192, 20)],
        keys: &[(0, 0), (84, 0), (192, 0), (0, 40), (108, 40), (216, 40)],
        owner: &[0, 0, 0, 1, 2, 3],
        sides: &[(0, 1), (1, 2)],
    },
    Layer {
        what: "an upright bar",
        rects: &UPRIGHT,
        zones: &[(0, 74, 20, 84)],
        keys: &[(0, 0), (40, 0), (0, 84), (40, 108)],
        owner: &[0, 1, 0, 2],
        sides: &[(0, 2)],
    },
    Layer {
        what: "a bar with more than eight zones",
        rects: &TEN_OVER,
        zones: &[
            (74, 0, 84, 20),
            (182, 0, 192, 20),
            (290, 0, 300, 20),
            (398, 0, 408, 20),
            (506, 0, 516, 20),
            (614, 0, 624, 20),
            (722, 0, 732, 20),
            (830, 0, 840, 20),
            (938, 0, 948, 20),
        ],
        keys: &[
            (0, 0),
            (84, 0),
            (192, 0),
            (300, 0),
            (408, 0),
            (516, 0),
            (624, 0),
            (732, 0),
            (840, 0),
            (948, 0),
            (0, 40),
            (108, 40),
            (216, 40),
            (324, 40),
            (432, 40),
            (540, 40),
            (648, 40),
            (756, 40),
            (864, 40),
            (972, 40),
        ],
        owner: &[0, 0, 0, 0, 0, 0, 0, 0, 0, 0, 1, 2, 3, 4, 5, 6, 7, 8, 9, 10],
        sides: &[
            (0, 1),
            (1, 2),
            (2, 3),
            (3, 4),
            (4, 5),
            (5, 6),
            (6, 7),
            (7, 8),
            (8, 9),
        ],
    },
    Layer {
        what: "both sides of a zone are one piece",
        rects: &STEPPED_RING,
        zones: &[(45, 0, 55, 40)],
        keys: &[(0, 0)],
        owner: &[0],
        sides: &[(0, 0)],
    },
    Layer {
        what: "three features are cut",
        rects: &THREE_BROKEN,
        zones: &[
            (74, 0, 84, 20),
            (74, 1000, 84, 1020),
            (182, 1000, 192, 1020),
            (45, 2000, 55, 2040),
            (0, 2045, 40, 2055),
            (60, 2045, 100, 2055),
            (45, 2060, 55, 2100),
        ],
        keys: &[
            (0, 0),
            (84, 0),
            (0, 40),
            (108, 40),
            (0, 1000),
            (84, 1000),
            (192, 1000),
            (0, 1040),
            (108, 1040),
            (216, 1040),
            (0, 2000),
            (55, 2000),
            (0, 2055),
            (60, 2055),
        ],
        owner: &[0, 0, 1, 2, 3, 3, 3, 4, 5, 6, 7, 7, 7, 7],
        sides: &[
            (0, 1),
            (4, 5),
            (5, 6),
            (10, 11),
            (10, 12),
            (11, 13),
            (12, 13),
        ],
    },
];

/// How many workers cut each layer.
static WORKERS: [u32; 5] = [1, 2, 4, 64, 1000];

/// Whether so many workers cut a layer into its pieces, at its zones.
fn is_cut<R: Threads + Sync>(
    rt: &R,
    alloc: Global,
    layer: &Layer,
    workers: u32,
) -> Result<bool, AllocError> {
    let cut = cut_by(rt, alloc, layer.rects, workers)?;
    Ok(
        has_keys(&cut, layer.keys)
            && cut.owner() == layer.owner
            && cut.sides() == layer.sides
            && has_zones(&cut, layer.zones),
    )
}

/// Whether each number of workers cuts a layer into its pieces.
fn is_cut_by_all<R: Threads + Sync>(
    rt: &R,
    alloc: Global,
    layer: &Layer,
) -> Result<bool, AllocError> {
    for &workers in &WORKERS {
        if !is_cut(rt, alloc, layer, workers)? {
            return Ok(false);
        }
    }
    Ok(true)
}

#[test]
fn layers_are_cut(rt: HostRuntime) {
    for layer in &LAYERS {
        let is_right = is_cut_by_all(&rt, rt.alloc(), layer) == Ok(true);
        assert!(rt; is_right, "{}", layer.what);
    }
}

/// How many times the bars stand one above the other.
const TIMES: u8 = 9;

/// The bars so many times.
fn many_bars(alloc: Global) -> Result<Vec<Corners>, AllocError> {
    let mut rects = Vec::new(alloc);
    for k in 0..TIMES {
        let up = 200 * k as i32;
        rects.extend_from_slice(&[
            (0, up, 158, up + 20),
            (0, up + 40, 50, up + 60),
            (108, up + 40, 158, up + 60),
        ])?;
    }
    Ok(rects)
}

/// Whether the sides are those of the zones in these bars, each of which has the first two of four pieces on its sides.
fn are_of_bars(sides: &[(Id, Id)]) -> bool {
    let mut piece: Id = 0;
    for &(left, right) in sides {
        if left != piece || right != piece.wrapping_add(1) {
            return false;
        }
        piece = piece.wrapping_add(4);
    }
    sides.len() == TIMES as usize
}

/// Whether so many workers note the sides of the zones in these bars.
fn note_sides<R: Threads + Sync>(rt: &R, alloc: Global, workers: u32) -> Result<bool, AllocError> {
    let rects = many_bars(alloc)?;
    let cut = cut_by(rt, alloc, &rects, workers)?;
    Ok(are_of_bars(cut.sides()))
}

#[test]
fn workers_note_the_same_sides(rt: HostRuntime) {
    for &workers in &WORKERS {
        let are_noted = note_sides(&rt, rt.alloc(), workers) == Ok(true);
        assert!(rt; are_noted, "by {workers} workers");
    }
}
