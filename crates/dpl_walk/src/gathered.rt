//! What a walk gathers: rectangles, and the loops of what isn't one.

ghost use Rattle.std.specs.Prelude.{◌≡◌, ◌^◌, ◌∷◌, [], true, false, map, IfOk, OnOk};
ghost use Rattle.std.specs.List.{All};
ghost use Rattle.dpl_spec_split.specs.Loops.{ArePointsWithin, farthest};
ghost use Rattle.dpl_spec_elements.specs.Motions.{image, IsMotionWithin};
ghost use Rattle.dpl_corners.specs.Corners.{loop_round};
ghost use Rattle.dpl_walk.specs.Kept.{Keeps, IsKept};
ghost use Rattle.dpl_walk.specs.Walk.{HasFarPoint};

use crate::cells::Outline;
use crate::least::note;
use dpl_base::{Loop, Pt, Rect, is_in_range};
use dpl_corners::{Bar, Shape, spanned};
use dpl_place::Place;
use std::alloc::{AllocError, Global};

/// The loops that were gathered, those of bars as rectangles, and the least offset of an element with a point too far
/// out. What lies too far out isn't kept.
#[derive(Drop)]
pub struct Gathered {
    pub rects: Vec<Rect>,
    pub loops: Vec<Loop>,
    /// In bytes; None where no point lies too far out.
    pub far: Option<usize>,
}

/// Whether all points lie no farther from 0 than the coordinates of a layer may.
fn are_in_range(points: &[Pt]) -> bool
    ensures within { result ≡ true → ArePointsWithin farthest points.now }
    ensures far { result ≡ false → HasFarPoint points.now }
{
    for point in points {
        if !is_in_range(point) {
            return false;
        }
    }
    true
}

/// Where a placement takes points.
fn moved(alloc: Global, place: &Place, points: &[Pt]) -> Result<Vec<Pt>, AllocError>
    requires place { IsMotionWithin (2 ^ 61) place.now }
    requires points { ArePointsWithin (2 ^ 61) points.now }
    ensures { IfOk result (λ v. v.items ≡ map (image place.now) points.now) }
{
    let mut images = Vec::with_capacity(alloc, points.len())?;
    for point in points {
        images.push(place.apply(*point))?;
    }
    Ok(images)
}

/// Keeps the rectangle of a bar where the placement takes it, or notes its element's offset where a corner lies too far out.
fn keep_bar(place: &Place, bar: &Bar, at: usize, gathered: &mut Gathered) -> Result<(), AllocError>
    requires place { IsMotionWithin (2 ^ 61) place.now }
    requires points { ArePointsWithin (2 ^ 61) (loop_round bar.now) }
    ensures { OnOk result (IsKept (map (image place.now) (loop_round bar.now)) at gathered.old gathered.new) }
{
    let corner = place.apply(bar.corner);
    let opposite = place.apply(bar.opposite);
    if is_in_range(&corner) && is_in_range(&opposite) {
        gathered.rects.push(spanned(&corner, &opposite))?;
        return Ok(());
    }
    gathered.far = note(gathered.far, true, at);
    Ok(())
}

/// Keeps a loop where the placement takes it, or notes its element's offset where a point lies too far out.
fn keep_loop(
    alloc: Global,
    place: &Place,
    points: &Loop,
    at: usize,
    gathered: &mut Gathered,
) -> Result<(), AllocError>
    requires place { IsMotionWithin (2 ^ 61) place.now }
    requires points { ArePointsWithin (2 ^ 61) points.now }
    ensures { OnOk result (IsKept (map (image place.now) points.now) at gathered.old gathered.new) }
{
    let points = moved(alloc, place, points.items())?;
    if are_in_range(points.as_slice()) {
        gathered.loops.push(Loop::of(points))?;
        return Ok(());
    }
    gathered.far = note(gathered.far, true, at);
    Ok(())
}

/// Keeps an outline where the placement takes it, or notes its element's offset where a point lies too far out.
fn keep(
    alloc: Global,
    place: &Place,
    outline: &Outline,
    gathered: &mut Gathered,
) -> Result<(), AllocError>
    requires place { IsMotionWithin (2 ^ 61) place.now }
    requires points { ArePointsWithin (2 ^ 61) outline.now.points }
    ensures { OnOk result (IsKept (map (image place.now) outline.now.points) outline.now.at gathered.old gathered.new) }
{
    match outline.points.shape() {
        Shape::Bar(bar) => keep_bar(place, bar, outline.at, gathered),
        Shape::Loop(points) => keep_loop(alloc, place, points, outline.at, gathered),
    }
}

/// Adds the loops of a structure's outlines where the placement takes them.
pub(crate) fn gather_all(
    alloc: Global,
    place: &Place,
    outlines: &[Outline],
    gathered: &mut Gathered,
) -> Result<(), AllocError>
    requires place { IsMotionWithin (2 ^ 61) place.now }
    requires points { All (λ o. ArePointsWithin (2 ^ 61) o.points) outlines.now }
    ensures { OnOk result (Keeps outlines.now (image place.now) gathered.old gathered.new) }
{
    for outline in outlines {
        keep(alloc, place, outline, gathered)?;
    }
    Ok(())
}
