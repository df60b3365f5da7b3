//! Whether rectangles are near by what one has in a cell.
ghost use Rattle.std.specs.Prelude.{◌≤◌, ◌↔◌, IsTrue};
ghost use Rattle.dpl_spec_split.specs.declared.Pt.{Pt};
ghost use Rattle.dpl_spec_split.specs.Loops.{farthest};
ghost use Rattle.dpl_spec_split.specs.Slabs.{IsSolid};
ghost use Rattle.dpl_spec_split.specs.Squares.{AreNear, Has, IsSolidWithin};
ghost use Rattle.dpl_edges.specs.InCells.{in_cell};
ghost use Rattle.dpl_edges.specs.Meetings.{HaveCommon};

use dpl_base::{Rect, Spacing, WideRect, near};

/// Whether some square is in both.
fn have_common(cell: &WideRect, r: &Rect) -> bool
    ensures { IsTrue result ↔ HaveCommon cell.now r.now }
{
    if r.x1 as i64 <= cell.x0() {
        return false;
    }
    if cell.x1() <= r.x0 as i64 {
        return false;
    }
    if r.y1 as i64 <= cell.y0() {
        return false;
    }
    if cell.y1() <= r.y0 as i64 {
        return false;
    }
    true
}

/// The squares of a rectangle in a cell.
fn clipped(r: &Rect, cell: &WideRect) -> Rect
    requires slab { IsSolidWithin farthest r.now }
    requires cell { IsSolid cell.now }
    requires common { HaveCommon cell.now r.now }
    ensures squares { (p : Pt) → Has result p ↔ in_cell cell.now (Has r.now) p }
    ensures solid { IsSolidWithin farthest result }
{
    Rect {
        x0: (r.x0 as i64).max(cell.x0()) as i32,
        y0: (r.y0 as i64).max(cell.y0()) as i32,
        x1: (r.x1 as i64).min(cell.x1()) as i32,
        y1: (r.y1 as i64).min(cell.y1()) as i32,
    }
}

/// Whether some square of `r` in the cell is near some square of `s`.
pub fn near_in(r: &Rect, s: &Rect, cell: &WideRect, spacing: Spacing) -> bool
    requires corner { spacing.corner ≤ spacing.rule }
    requires slab { IsSolidWithin farthest r.now }
    requires other { IsSolidWithin farthest s.now }
    requires cell { IsSolid cell.now }
    ensures { IsTrue result ↔ AreNear spacing (in_cell cell.now (Has r.now)) (Has s.now) }
{
    if !have_common(cell, r) {
        return false;
    }
    near(&clipped(r, cell), s, spacing)
}
