//! Corners of slabs and of zones.
ghost use Rattle.std.specs.Prelude.{◌≡◌, ◌^◌, ◌≤◌, ◌<◌, ◌↔◌, ◌++◌, length, map, true, false, OnOk};
ghost use Rattle.std.specs.List.{All, AllWithin, Contains};
ghost use Rattle.std.specs.List.Sorted.{IsPermutation, IsPartitionPoint};
ghost use Rattle.std.specs.Ordering.{is_lt};
ghost use Rattle.dpl_sides.specs.declared.corner.Corner.{Corner};
ghost use Rattle.dpl_sides.specs.Corners.{corner_of, is_before, row_cmp, slab_of, AreSlabsWithin, IsBracket, RiseByCorner};
ghost use Rattle.dpl_sides.specs.Noted.{IsZoneCorner};
ghost use Rattle.dpl_sides.specs.Pieces.{parts_in};

use crate::piece::Piece;
use dpl_base::{Rect, Zone};
use dpl_sort::sort_by_key;
use std::alloc::AllocError;

/// A corner of a slab, with its part's number, or a corner of a zone, with the zone's number.
#[derive(Clone, Copy, Drop)]
pub struct Corner {
    pub x: i32,
    pub y: i32,
    pub number: u32,
}

/// A slab of a part, with the part's number.
#[derive(Clone, Copy, Drop)]
pub struct Slab {
    pub rect: Rect,
    pub number: u32,
}

/// Which corner of a rectangle.
#[derive(Clone, Copy, Drop)]
pub enum Kind {
    LowerLeft,
    LowerRight,
    UpperLeft,
}

/// The corner of a rectangle.
pub fn rect_corner(r: &Rect, number: u32, kind: Kind) -> Corner
    ensures { result ≡ corner_of kind number r.now }
{
    let (x, y) = match kind {
        Kind::LowerLeft => (r.x0, r.y0),
        Kind::LowerRight => (r.x1, r.y0),
        Kind::UpperLeft => (r.x0, r.y1),
    };
    Corner { x, y, number }
}

/// Sorts by row, and then by column.
fn sort_by_corner(corners: &mut Vec<Corner>)
    ensures same { IsPermutation corners.old.items corners.new.items }
    ensures rise { RiseByCorner corners.new.items }
{
    sort_by_key(corners, |c| (c.y, c.x));
}

/// Makes the list one corner of each of the zones of these numbers, by row and then by column.
pub fn zone_corners(
    corners: &mut Vec<Corner>,
    zones: &[Zone],
    own: &[u32],
    kind: Kind,
) -> Result<(), AllocError>
    requires { All (λ j. j < length zones.now) own.now }
    ensures rise { OnOk result (RiseByCorner corners.new.items) }
    ensures members { OnOk result ((c : Corner) → Contains corners.new.items c ↔ IsZoneCorner kind zones.now own.now c) }
{
    corners.clear();
    for &number in own {
        corners.push(rect_corner(&zones[number as usize].rect, number, kind))?;
    }
    sort_by_corner(corners);
    Ok(())
}

/// Adds the slabs of a part.
fn add_slabs(slabs: &mut Vec<Slab>, rects: &[Rect], number: u32) -> Result<(), AllocError>
    ensures { OnOk result (slabs.new.items ≡ slabs.old.items ++ map (slab_of number) rects.now) }
{
    for r in rects {
        slabs.push(Slab { rect: *r, number })?;
    }
    Ok(())
}

/// Makes the list the slabs of all pieces from a number on. They are sorted by row and then by column: so their lower left corners are in order, their lower right ones too, since no two have a square in common, and their upper left ones nearly so. No clause tells; whoever seeks such corners among others takes few steps.
pub fn list_slabs(slabs: &mut Vec<Slab>, pieces: &[Piece], from: usize) -> Result<(), AllocError>
    requires few { length pieces.now < 2 ^ 32 }
    requires from { from ≤ length pieces.now }
    ensures { OnOk result (AreSlabsWithin (parts_in pieces.now) from (length (parts_in pieces.now)) slabs.new.items) }
{
    slabs.clear();
    for k in from..pieces.len() {
        add_slabs(slabs, pieces[k].part.rects(), k as u32)?;
    }
    sort_by_key(slabs, |slab| (slab.rect.y0, slab.rect.x0));
    Ok(())
}

/// Whether a corner comes before the point, by row and then by column.
fn is_before(c: &Corner, x: i32, y: i32) -> bool
    ensures { result ≡ is_before x y c.now }
{
    (c.y, c.x) < (y, x)
}

/// Between which places the first corner is that doesn't come before a point: all corners before `low` do, and none from `high` on.
#[derive(Clone, Copy, Drop)]
struct Bracket {
    low: usize,
    high: usize,
}

/// A bracket from a place on before which all corners come before the point, by steps that double.
fn bracket_above(corners: &[Corner], start: usize, x: i32, y: i32) -> Bracket
    requires rise { RiseByCorner corners.now }
    requires within { start ≤ length corners.now }
    requires under { AllWithin (λ c. is_before x y c ≡ true) corners.now 0 start }
    ensures { IsBracket corners.now x y result.low result.high }
{
    let mut low = start;
    let mut high = start;
    let mut step: usize = 1;
    while high < corners.len() {
        if !is_before(&corners[high], x, y) {
            return Bracket { low, high };
        }
        low = high + 1;
        high = low.saturating_add(step).min(corners.len());
        step = step.saturating_mul(2);
    }
    Bracket { low, high }
}

/// A bracket up to a place from which on no corner comes before the point, by steps that double.
fn bracket_below(corners: &[Corner], start: usize, x: i32, y: i32) -> Bracket
    requires rise { RiseByCorner corners.now }
    requires within { start ≤ length corners.now }
    requires over { AllWithin (λ c. is_before x y c ≡ false) corners.now start (length corners.now) }
    ensures { IsBracket corners.now x y result.low result.high }
{
    let mut low = start;
    let mut high = start;
    let mut step: usize = 1;
    while 0 < low {
        if is_before(&corners[low - 1], x, y) {
            return Bracket { low, high };
        }
        high = low - 1;
        low = high.saturating_sub(step);
        step = step.saturating_mul(2);
    }
    Bracket { low, high }
}

/// A bracket near a place.
fn bracket_near(corners: &[Corner], place: usize, x: i32, y: i32) -> Bracket
    requires rise { RiseByCorner corners.now }
    ensures { IsBracket corners.now x y result.low result.high }
{
    if place >= corners.len() {
        return bracket_below(corners, corners.len(), x, y);
    }
    if is_before(&corners[place], x, y) {
        return bracket_above(corners, place + 1, x, y);
    }
    bracket_below(corners, place, x, y)
}

/// How many of the corners come before the point, sought from a place on: where that is close, few corners are looked at.
pub fn count_before(corners: &[Corner], place: usize, x: i32, y: i32) -> usize
    requires { RiseByCorner corners.now }
    ensures bound { result ≤ length corners.now }
    ensures parted { IsPartitionPoint (λ c. is_lt (row_cmp (c.y, c.x) (y, x)) ≡ true) (λ c. is_lt (row_cmp (c.y, c.x) (y, x)) ≡ false) corners.now result }
{
    let bracket = bracket_near(corners, place, x, y);
    let mut low = bracket.low;
    let mut high = bracket.high;
    while low < high {
        let middle = low + (high - low) / 2;
        if is_before(&corners[middle], x, y) {
            low = middle + 1;
        } else {
            high = middle;
        }
    }
    low
}
