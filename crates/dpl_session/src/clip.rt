//! What of a rectangle lies in a window.
ghost use Rattle.std.specs.Prelude.{◌↔◌, ◌≤◌};
ghost use Rattle.dpl_spec_split.specs.declared.Pt.{Pt};
ghost use Rattle.dpl_spec_split.specs.Loops.{farthest};
ghost use Rattle.dpl_spec_split.specs.Slabs.{IsSolid};
ghost use Rattle.dpl_spec_split.specs.Squares.{Has, IsSolidWithin};
ghost use Rattle.dpl_edges.specs.InCells.{in_cell};
ghost use Rattle.dpl_edges.specs.Meetings.{HaveCommon};

use dpl_base::{Rect, WideRect};

/// The squares of a rectangle in a window.
pub(crate) fn clipped(r: &Rect, cell: &WideRect) -> Rect
    requires slab { IsSolidWithin farthest r.now }
    requires cell { IsSolid cell.now }
    requires common { HaveCommon cell.now r.now }
    ensures squares { (p : Pt) → Has result p ↔ in_cell cell.now (Has r.now) p }
    ensures solid { IsSolidWithin farthest result }
{
    Rect {
        x0: (r.x0 as i64).max(cell.x0()) as i32,
        y0: (r.y0 as i64).max(cell.y0()) as i32,
        x1: (r.x1 as i64).min(cell.x1()) as i32,
        y1: (r.y1 as i64).min(cell.y1()) as i32,
    }
}
