//! The least square of a few rectangles that is near one of a few others, pair by pair.
ghost use Rattle.std.specs.Prelude.{◌≡◌, ◌≤◌, ◌<ℤ◌, ◌+ℤ◌, ◌-ℤ◌, pos};
ghost use Rattle.std.specs.List.{All};
ghost use Rattle.dpl_spec_split.specs.Slabs.{IsSolid};
ghost use Rattle.dpl_spec_split.specs.Squares.{Covers, Has};
ghost use Rattle.dpl_nearest.specs.Search.{IsLeastNear};
ghost use Rattle.dpl_nearest.specs.Few.{IsFirstOf, IsFirstWithin};

use crate::least::lesser;
use dpl_base::{Pt, Rect, Spacing, reach, span_gap};

/// The first of all columns with at most `most` columns between it and column `b`.
fn left_end(b: i32, most: u32) -> i64
    ensures { result ≡ (b -ℤ pos 1) -ℤ pos most }
{
    b as i64 - 1 - most as i64
}

/// The last of all columns with at most `most` columns between it and column `b - 1`.
fn right_end(b: i32, most: u32) -> i64
    ensures { result ≡ b +ℤ pos most }
{
    b as i64 + most as i64
}

/// The first of the columns `a0` to `a1 - 1` with at most `most` columns between it and one of the columns `b0` to `b1 - 1`.
fn first_within(a0: i32, a1: i32, b0: i32, b1: i32, most: u32) -> Option<i32>
    requires some_a { a0 <ℤ a1 }
    requires some_b { b0 <ℤ b1 }
    ensures { IsFirstWithin a0 a1 b0 b1 most result }
{
    let from = left_end(b0, most);
    let to = right_end(b1, most);
    if to < a0 as i64 {
        return None;
    }
    if a1 as i64 <= from {
        return None;
    }
    if from < a0 as i64 {
        return Some(a0);
    }
    Some(from as i32)
}

/// The least square of `r` that is near `other`.
fn least_beside(r: &Rect, other: &Rect, spacing: Spacing) -> Option<Pt>
    requires corner { spacing.corner ≤ spacing.rule }
    requires solid { IsSolid r.now }
    requires other { IsSolid other.now }
    ensures { IsLeastNear spacing (Has r.now) (Has other.now) result }
{
    let across = span_gap(r.x0, r.x1, other.x0, other.x1);
    let rows = reach(spacing, across)?;
    let y = first_within(r.y0, r.y1, other.y0, other.y1, rows)?;
    let up = span_gap(y, y + 1, other.y0, other.y1);
    let columns = reach(spacing, up)?;
    let x = first_within(r.x0, r.x1, other.x0, other.x1, columns)?;
    Some(Pt {
        x: x as i64,
        y: y as i64,
    })
}

/// The first of two squares, by row and then by column, if there is one.
fn first_of(p: Option<Pt>, q: Option<Pt>) -> Option<Pt>
    ensures { IsFirstOf p q result }
{
    let Some(first) = p else {
        return q;
    };
    let Some(second) = q else {
        return p;
    };
    Some(lesser(first, second))
}

/// The least square of `r` that is near the others.
fn least_of_one(r: &Rect, others: &[Rect], spacing: Spacing) -> Option<Pt>
    requires corner { spacing.corner ≤ spacing.rule }
    requires solid { IsSolid r.now }
    requires others { All IsSolid others.now }
    ensures { IsLeastNear spacing (Has r.now) (Covers others.now) result }
{
    let mut best = None;
    for other in others {
        best = first_of(best, least_beside(r, other, spacing));
    }
    best
}

/// The least square of rectangles that is near the others.
pub(crate) fn least_of_few(rects: &[Rect], others: &[Rect], spacing: Spacing) -> Option<Pt>
    requires corner { spacing.corner ≤ spacing.rule }
    requires solid { All IsSolid rects.now }
    requires others { All IsSolid others.now }
    ensures { IsLeastNear spacing (Covers rects.now) (Covers others.now) result }
{
    let mut best = None;
    for r in rects {
        best = first_of(best, least_of_one(r, others, spacing));
    }
    best
}
