//! Rectangles that a test lists: their squares, and the pieces of a layer of them.
ghost use Rattle.std.specs.Prelude.{◌≤◌, ◌<ℤ◌, IfOk, IfSome, IsTrue, OnOk, unsigned_abs};
ghost use Rattle.dpl_spec_split.specs.Loops.{farthest, IsRectWithin, AreRectsWithin};

use dpl_base::{FARTHEST, Rect, Spacing};
use dpl_feature::features;
use dpl_piece::{Pieces, pieces};
use dpl_slabs::{Parts, Slabs};
use dpl_zone::zones;
use std::alloc::{AllocError, Global};

/// How far apart the worked layouts stay, but where a test says another spacing.
pub const SPACING: Spacing = Spacing {
    rule: 30,
    corner: 30,
};

/// The corners of a rectangle: left, low, right, high.
pub type Corners = (i32, i32, i32, i32);

/// A long bar, and two that stand over its ends.
pub const BARS: [Corners; 3] = [(0, 0, 158, 20), (0, 40, 50, 60), (108, 40, 158, 60)];

/// A square with a hole in its middle.
pub const RING: [Corners; 4] = [
    (0, 0, 100, 40),
    (0, 40, 40, 60),
    (60, 40, 100, 60),
    (0, 60, 100, 100),
];

/// Whether the columns, or the rows, are some of a layer's.
fn is_span(low: i32, high: i32) -> bool
    ensures { IsTrue result → (low <ℤ high) × (unsigned_abs low ≤ farthest) × (unsigned_abs high ≤ farthest) }
{
    if low >= high {
        return false;
    }
    if (low as i64) < -FARTHEST {
        return false;
    }
    if high as i64 > FARTHEST {
        return false;
    }
    true
}

/// The rectangle, where it has squares.
fn rect_of(corners: Corners) -> Option<Rect>
    ensures { IfSome result (IsRectWithin farthest) }
{
    let (x0, y0, x1, y1) = corners;
    if is_span(x0, x1) {
        if is_span(y0, y1) {
            return Some(Rect { x0, y0, x1, y1 });
        }
    }
    None
}

/// Adds a rectangle, where it has squares.
fn add_rect(rects: &mut Vec<Rect>, corners: Corners) -> Result<(), AllocError>
    requires { AreRectsWithin farthest rects.old.items }
    ensures { OnOk result (AreRectsWithin farthest rects.new.items) }
{
    let Some(rect) = rect_of(corners) else {
        return Ok(());
    };
    rects.push(rect)?;
    Ok(())
}

/// Those of some rectangles that have squares.
pub fn rects_of(alloc: Global, corners: &[Corners]) -> Result<Vec<Rect>, AllocError>
    ensures { IfOk result (λ v. AreRectsWithin farthest v.items) }
{
    let mut rects = Vec::new(alloc);
    for next in corners {
        add_rect(&mut rects, *next)?;
    }
    Ok(rects)
}

/// The squares of some rectangles.
pub fn set_of(alloc: Global, corners: &[Corners]) -> Result<Slabs, AllocError> {
    let rects = rects_of(alloc, corners)?;
    Slabs::of_rects(alloc, rects)
}

/// The features of some rectangles.
pub fn features_of(alloc: Global, corners: &[Corners]) -> Result<Parts, AllocError> {
    let set = set_of(alloc, corners)?;
    features(alloc, &set)
}

/// Whether the rectangles have these corners, one after the other.
pub fn are(rects: &[Rect], corners: &[Corners]) -> bool {
    rects.len() == corners.len()
        && rects
            .iter()
            .zip(corners)
            .all(|(r, c)| (r.x0, r.y0, r.x1, r.y1) == *c)
}

/// The pieces of a layer by a rule of 30 and an overlap of 10.
pub fn cut(alloc: Global, layer: &[Corners]) -> Result<Pieces, AllocError> {
    let layer = set_of(alloc, layer)?;
    let features = features(alloc, &layer)?;
    let zones = zones(alloc, &features, SPACING, 10, &Slabs::empty(alloc))?;
    pieces(alloc, features, zones)
}
