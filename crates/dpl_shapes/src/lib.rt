//! The loops of boundaries, boxes and paths, by the elements of the GDSII Stream Format, Release 6. Edges that aren't parallel to an axis, round paths, odd widths, paths that turn back and negative extensions are refused.
#![tactic(auto)]

mod bars;
mod distinct;
mod fault;
mod headings;
mod straight;

ghost use Rattle.std.specs.Prelude.{◌≡◌, ◌^◌, ◌≤◌, ◌↔◌, ℤ, unsigned_abs, map, IfOk, IfErr, OnOk, MatchBool};
ghost use Rattle.std.specs.List.{All};
ghost use Rattle.dpl_spec_split.specs.declared.Pt.{Pt};
ghost use Rattle.dpl_spec_split.specs.Loops.{IsRectilinear, SomeLoopCovers, ArePointsWithin};
ghost use Rattle.dpl_spec_elements.specs.Paths.{path_of, path_rects, past_end, corners_of, PathCovers, IsFaultless};
ghost use Rattle.dpl_shapes.specs.Types.{IsKnownType, IsUnknownType, HasNegativeEnd};
ghost use Rattle.dpl_shapes.specs.Refusals.{RefusesBoundary, RefusesPath};
ghost use Rattle.dpl_shapes.specs.Strokes.{drawn_points};

pub use crate::bars::loop_round;
use crate::bars::{Margins, loops_along};
use crate::distinct::distinct_points;
pub use crate::fault::ShapeFault;
use crate::headings::turns_back;
use crate::straight::is_straight;
pub use crate::straight::{is_level_or_upright, is_rectilinear};
use dpl_base::{Loop, Pt};
pub use dpl_spec_elements::PathFault;
use std::alloc::Global;

/// The loop of a boundary or box: its points in order. The edge from the last point to the first is one of its edges.
///
/// # Errors
/// `SlantedBoundary` exactly where an edge isn't parallel to an axis; `NoMemory`.
pub fn boundary_loop(alloc: Global, points: &[Pt]) -> Result<Loop, ShapeFault>
    ensures points { IfOk result (λ l. l ≡ points.now) }
    ensures straight { IfOk result (λ l. IsRectilinear l) }
    ensures refused { IfErr result (λ e. RefusesBoundary points.now e) }
{
    if !is_rectilinear(points) {
        return Err(ShapeFault::SlantedBoundary);
    }
    let corners = points.to_vec(alloc)?;
    Ok(Loop::of(corners))
}

/// The loops of a path: the four corners of one rectangle for each straight part, which has half the width to each side and goes on by half the width at each inner corner. At the two ends it goes on by nothing (type 0), by half the width (type 2) or by the given extension (type 4). A path of one point is a square where its type is 2, and nothing otherwise. A path of width 0 has no loop, and nothing more is asked of it. Coordinates, width and extensions are database units; a negative width counts as its absolute value.
///
/// # Errors
/// The first that applies of `RoundPath` (type 1), `BadPathType`, `OddWidth`, `SlantedPath`, `PathTurnsBack` and, at type 4, `NegativeExtension`; `NoMemory`.
pub fn path_loops(
    alloc: Global,
    points: &[Pt],
    width: i64,
    kind: i16,
    begin_ext: i64,
    end_ext: i64,
) -> Result<Vec<Loop>, ShapeFault>
    requires points { ArePointsWithin (2 ^ 31) points.now }
    requires width { unsigned_abs width ≤ 2 ^ 31 }
    requires begin_ext { unsigned_abs begin_ext ≤ 2 ^ 31 }
    requires end_ext { unsigned_abs end_ext ≤ 2 ^ 31 }
    ensures loops { IfOk result (λ v. v.items ≡ map corners_of (path_rects (path_of points.now width kind begin_ext end_ext))) }
    ensures covers { IfOk result (λ v. (s : Pt) → SomeLoopCovers v.items s ↔ PathCovers (path_of points.now width kind begin_ext end_ext) s) }
    ensures straight { IfOk result (λ v. All IsRectilinear v.items) }
    ensures faultless { OnOk result (IsFaultless (path_of points.now width kind begin_ext end_ext)) }
    ensures refused { IfErr result (λ e. RefusesPath (path_of points.now width kind begin_ext end_ext) e) }
{
    let corners = drawn_points(alloc, points, width, kind, begin_ext, end_ext)?;
    let half = (width.unsigned_abs() / 2) as i64;
    let margins = Margins {
        half,
        begin: past_end(kind, half, begin_ext),
        end: past_end(kind, half, end_ext),
    };
    Ok(loops_along(alloc, &corners, &margins, kind == 2)?)
}

/// Whether a path is refused, without its loops.
///
/// # Errors
/// Those of `path_loops`.
pub fn check_path(
    alloc: Global,
    points: &[Pt],
    width: i64,
    kind: i16,
    begin_ext: i64,
    end_ext: i64,
) -> Result<(), ShapeFault>
    ensures faultless { OnOk result (IsFaultless (path_of points.now width kind begin_ext end_ext)) }
    ensures refused { IfErr result (λ e. RefusesPath (path_of points.now width kind begin_ext end_ext) e) }
{
    drawn_points(alloc, points, width, kind, begin_ext, end_ext)?;
    Ok(())
}

/// The points that a path is drawn through, without those that equal the one before them; none where its width is 0.
fn drawn_points(
    alloc: Global,
    points: &[Pt],
    width: i64,
    kind: i16,
    begin_ext: i64,
    end_ext: i64,
) -> Result<Vec<Pt>, ShapeFault>
    ensures points { IfOk result (λ v. v.items ≡ drawn_points (path_of points.now width kind begin_ext end_ext)) }
    ensures faultless { OnOk result (IsFaultless (path_of points.now width kind begin_ext end_ext)) }
    ensures refused { IfErr result (λ e. RefusesPath (path_of points.now width kind begin_ext end_ext) e) }
{
    if width == 0 {
        return Ok(Vec::new(alloc));
    }
    let width = width.unsigned_abs();
    if kind == 1 {
        return Err(ShapeFault::Path(PathFault::RoundPath));
    }
    if !is_known_type(kind) {
        return Err(ShapeFault::Path(PathFault::BadPathType));
    }
    if width % 2 == 1 {
        return Err(ShapeFault::Path(PathFault::OddWidth));
    }
    let corners = distinct_points(alloc, points)?;
    if !is_straight(&corners) {
        return Err(ShapeFault::Path(PathFault::SlantedPath));
    }
    if turns_back(&corners) {
        return Err(ShapeFault::Path(PathFault::PathTurnsBack));
    }
    if has_negative_end(kind, begin_ext, end_ext) {
        return Err(ShapeFault::Path(PathFault::NegativeExtension));
    }
    Ok(corners)
}

/// Whether a path type is one of those with square corners.
fn is_known_type(kind: i16) -> bool
    ensures { MatchBool result (IsKnownType kind) (IsUnknownType kind) }
{
    matches!(kind, 0 | 2 | 4)
}

/// Whether a path has an extension that counts and is negative.
fn has_negative_end(kind: i16, begin_ext: i64, end_ext: i64) -> bool
    ensures { MatchBool result (HasNegativeEnd kind begin_ext end_ext) (HasNegativeEnd kind begin_ext end_ext → ⊥) }
{
    kind == 4 && (begin_ext < 0 || end_ext < 0)
}

/// How far a path of this type goes on past one of its ends, whose given extension is `ext`.
fn past_end(kind: i16, half: i64, ext: i64) -> i64
    ensures { result ≡ past_end kind half ext }
{
    match kind {
        2 => half,
        4 => ext,
        _ => 0,
    }
}
