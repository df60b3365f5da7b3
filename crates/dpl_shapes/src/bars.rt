//! The rectangles along the segments of a path.
ghost use Rattle.std.specs.Prelude.{◌≡◌, ◌≤◌, ◌^◌, List, [], ◌∷◌, ◌++◌, map, IfOk, OnOk, unsigned_abs, if◌then◌else◌};
ghost use Rattle.dpl_spec_split.specs.declared.Pt.{Pt};
ghost use Rattle.dpl_spec_split.specs.Loops.{IsPointWithin, ArePointsWithin};
ghost use Rattle.dpl_spec_elements.specs.Paths.{segments_from, bar, bars, square_round, corners_of};
ghost use Rattle.dpl_shapes.specs.Strokes.{IsSegmentWithin, IsStrokeWithin, AreMarginsWithin, DrawsTo, rects_along};

use crate::headings::{go_the_same_way, heading_to};
use dpl_base::{Loop, Pt, WideRect};
use dpl_spec_elements::{Heading, Segment};
use std::alloc::{AllocError, Global};

/// How far the rectangles of a path go on from its segments, in database units.
#[derive(Drop)]
pub struct Margins {
    /// To each side, and at each inner corner.
    pub half: i64,
    /// Before the first point.
    pub begin: i64,
    /// After the last point.
    pub end: i64,
}

/// The segment that a path is in, and how far its rectangle goes on before it.
#[derive(Drop)]
pub struct Stroke {
    pub segment: Segment,
    pub begin: i64,
}

/// The corners of a rectangle, counterclockwise from the lower left one.
pub fn loop_round(alloc: Global, rect: WideRect) -> Result<Loop, AllocError>
    ensures { IfOk result (λ l. l ≡ corners_of rect) }
{
    let mut corners = Vec::with_capacity(alloc, 4)?;
    corners.push(Pt {
        x: rect.x0(),
        y: rect.y0(),
    })?;
    corners.push(Pt {
        x: rect.x1(),
        y: rect.y0(),
    })?;
    corners.push(Pt {
        x: rect.x1(),
        y: rect.y1(),
    })?;
    corners.push(Pt {
        x: rect.x0(),
        y: rect.y1(),
    })?;
    Ok(Loop::of(corners))
}

/// The rectangle along a segment that goes on by `begin` before it and by `end` after it.
fn bar_round(segment: &Segment, half: i64, begin: i64, end: i64) -> WideRect
    requires segment { IsSegmentWithin (2 ^ 31) segment.now }
    requires half { unsigned_abs half ≤ 2 ^ 31 }
    requires begin { unsigned_abs begin ≤ 2 ^ 31 }
    requires end { unsigned_abs end ≤ 2 ^ 31 }
    ensures { result ≡ bar half begin end segment.now }
{
    let from = segment.from;
    let to = segment.to;
    match heading_to(&from, &to) {
        Heading::East => WideRect::new(from.x - begin, from.y - half, to.x + end, from.y + half),
        Heading::North => WideRect::new(from.x - half, from.y - begin, from.x + half, to.y + end),
        Heading::West => WideRect::new(to.x - end, from.y - half, from.x + begin, from.y + half),
        Heading::South => WideRect::new(from.x - half, to.y - end, from.x + half, from.y + begin),
    }
}

/// The square round a point.
fn square_at(point: &Pt, half: i64) -> WideRect
    requires point { IsPointWithin (2 ^ 31) point.now }
    requires half { unsigned_abs half ≤ 2 ^ 31 }
    ensures { result ≡ square_round half point.now }
{
    WideRect::new(
        point.x - half,
        point.y - half,
        point.x + half,
        point.y + half,
    )
}

/// Adds the loop of a bar.
fn add_bar(
    alloc: Global,
    loops: &mut Vec<Loop>,
    segment: &Segment,
    half: i64,
    begin: i64,
    end: i64,
) -> Result<(), AllocError>
    requires segment { IsSegmentWithin (2 ^ 31) segment.now }
    requires half { unsigned_abs half ≤ 2 ^ 31 }
    requires begin { unsigned_abs begin ≤ 2 ^ 31 }
    requires end { unsigned_abs end ≤ 2 ^ 31 }
    ensures { OnOk result (loops.new.items ≡ loops.old.items ++ corners_of (bar half begin end segment.now) ∷ []) }
{
    let outline = loop_round(alloc, bar_round(segment, half, begin, end))?;
    loops.push(outline)?;
    Ok(())
}

/// Goes on to a point: further along the segment, or round a corner, after which the segment's loop is there.
fn draw_to(
    alloc: Global,
    loops: &mut Vec<Loop>,
    stroke: Stroke,
    point: Pt,
    half: i64,
) -> Result<Stroke, AllocError>
    requires stroke { IsStrokeWithin (2 ^ 31) stroke }
    requires point { IsPointWithin (2 ^ 31) point }
    requires half { unsigned_abs half ≤ 2 ^ 31 }
    ensures draws { IfOk result (λ next. DrawsTo half loops.old.items stroke point loops.new.items next) }
    ensures within { IfOk result (λ next. IsStrokeWithin (2 ^ 31) next) }
{
    let from = stroke.segment.from;
    let to = stroke.segment.to;
    if go_the_same_way(heading_to(&from, &to), heading_to(&to, &point)) {
        return Ok(Stroke {
            segment: Segment { from, to: point },
            begin: stroke.begin,
        });
    }
    add_bar(alloc, loops, &stroke.segment, half, stroke.begin, half)?;
    Ok(Stroke {
        segment: Segment {
            from: to,
            to: point,
        },
        begin: half,
    })
}

/// The loops along the segments that begin with `first` and go on through the points.
fn bar_loops(
    alloc: Global,
    first: Segment,
    rest: &[Pt],
    margins: &Margins,
) -> Result<Vec<Loop>, AllocError>
    requires first { IsSegmentWithin (2 ^ 31) first }
    requires rest { ArePointsWithin (2 ^ 31) rest.now }
    requires margins { AreMarginsWithin (2 ^ 31) margins.now }
    ensures { IfOk result (λ v. v.items ≡ map corners_of (bars margins.now.half margins.now.begin margins.now.end (segments_from first.from first.to rest.now))) }
{
    let mut loops = Vec::new(alloc);
    let mut stroke = Stroke {
        segment: first,
        begin: margins.begin,
    };
    for point in rest {
        stroke = draw_to(alloc, &mut loops, stroke, *point, margins.half)?;
    }
    add_bar(
        alloc,
        &mut loops,
        &stroke.segment,
        margins.half,
        stroke.begin,
        margins.end,
    )?;
    Ok(loops)
}

/// The loops of a path of one point: the square round it where `dot` says so.
fn dot_loops(alloc: Global, point: &Pt, half: i64, dot: bool) -> Result<Vec<Loop>, AllocError>
    requires point { IsPointWithin (2 ^ 31) point.now }
    requires half { unsigned_abs half ≤ 2 ^ 31 }
    ensures { IfOk result (λ v. v.items ≡ map corners_of (if dot then square_round half point.now ∷ [] else [])) }
{
    let mut loops = Vec::new(alloc);
    if !dot {
        return Ok(loops);
    }
    let outline = loop_round(alloc, square_at(point, half))?;
    loops.push(outline)?;
    Ok(loops)
}

/// The loops of a path through points of which no two neighbours are equal. A single point makes a square where `dot` says so.
pub fn loops_along(
    alloc: Global,
    points: &[Pt],
    margins: &Margins,
    dot: bool,
) -> Result<Vec<Loop>, AllocError>
    requires points { ArePointsWithin (2 ^ 31) points.now }
    requires margins { AreMarginsWithin (2 ^ 31) margins.now }
    ensures { IfOk result (λ v. v.items ≡ map corners_of (rects_along margins.now dot points.now)) }
{
    match points {
        [] => Ok(Vec::new(alloc)),
        [point] => dot_loops(alloc, point, margins.half, dot),
        [from, to, rest @ ..] => {
            let first = Segment {
                from: *from,
                to: *to,
            };
            bar_loops(alloc, first, rest, margins)
        }
    }
}
