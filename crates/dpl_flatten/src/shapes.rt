//! What boundaries, boxes and paths draw.

ghost use Rattle.std.specs.Prelude.{◌≡◌, ◌+◌, ◌*◌, ◌^◌, ◌≤◌, ◌%◌, ℤ, pos, length, unwrap_or, IfOk, IfSome, OnOk, MatchBool};
ghost use Rattle.dpl_spec_split.specs.Loops.{ArePointsWithin, IsRectilinear};
ghost use Rattle.dpl_spec_elements.specs.Boundaries.{IsSlanted};
ghost use Rattle.dpl_spec_layout.specs.Elements.{points_in, IsBoundaryFault, IsPathFault};
ghost use Rattle.dpl_reference.specs.Faults.{IsFaultBy};
ghost use Rattle.dpl_reference.specs.Roles.{path_along};

use dpl_base::Pt;
use dpl_corners::Figure;
use dpl_reference::{PathStyle, point_at};
use dpl_shapes::{ShapeFault, check_path, is_level_or_upright};
use dpl_spec_layout::ElementFault;
use std::alloc::{AllocError, Global};

/// The points in the data of XY.
pub(crate) fn points_of(alloc: Global, xy: &[u8]) -> Result<Vec<Pt>, AllocError>
    ensures value { IfOk result (λ v. v.items ≡ points_in xy.now) }
    ensures within { IfOk result (λ v. ArePointsWithin (2 ^ 31) v.items) }
{
    let mut points = Vec::with_capacity(alloc, xy.len() / 8)?;
    for i in 0..xy.len() / 8 {
        points.push(point_at(xy, i))?;
    }
    Ok(points)
}

/// The loop through the points in the data of XY, where these are five, the corners of a rectangle and the first again.
#[inline(always)]
pub(crate) fn rectangle_of(xy: &[u8]) -> Option<Figure>
    ensures points { IfSome result (λ f. f ≡ points_in xy.now) }
    ensures within { IfSome result (λ f. ArePointsWithin (2 ^ 31) (points_in xy.now)) }
    ensures straight { IfSome result (λ f. IsRectilinear (points_in xy.now)) }
{
    if xy.len() != 40 {
        return None;
    }
    Figure::through(&[
        point_at(xy, 0),
        point_at(xy, 1),
        point_at(xy, 2),
        point_at(xy, 3),
        point_at(xy, 4),
    ])
}

/// Whether each edge of a boundary or box is parallel to an axis, by the data of its XY.
fn is_upright(xy: &[u8]) -> bool
    ensures { MatchBool result (IsRectilinear (points_in xy.now)) (IsSlanted (points_in xy.now)) }
{
    if rectangle_of(xy).is_some() {
        return true;
    }
    let count = xy.len() / 8;
    if count == 0 {
        return true;
    }
    let first = point_at(xy, 0);
    let mut last = first;
    for i in 1..count {
        let point = point_at(xy, i);
        if !is_level_or_upright(&last, &point) {
            return false;
        }
        last = point;
    }
    is_level_or_upright(&last, &first)
}

/// What a boundary or box is refused for.
pub(crate) fn boundary_fault(xy: &[u8]) -> Option<ElementFault>
    ensures { IsFaultBy (IsBoundaryFault (points_in xy.now)) result }
{
    if is_upright(xy) {
        None
    } else {
        Some(ElementFault::SlantedBoundary)
    }
}

/// What a path is refused for.
pub(crate) fn path_fault(
    alloc: Global,
    style: PathStyle,
    xy: &[u8],
) -> Result<Option<ElementFault>, AllocError>
    ensures { IfOk result (IsFaultBy (IsPathFault (path_along style xy.now))) }
{
    let points = points_of(alloc, xy)?;
    match check_path(
        alloc,
        points.as_slice(),
        style.width as i64,
        style.kind,
        style.begin_ext as i64,
        style.end_ext as i64,
    ) {
        Ok(()) => Ok(None),
        Err(ShapeFault::Path(fault)) => Ok(Some(ElementFault::Path(fault))),
        Err(ShapeFault::NoMemory) => Err(AllocError),
        Err(ShapeFault::SlantedBoundary) => unreachable!(),
    }
}
