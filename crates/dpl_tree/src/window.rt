//! Windows of a search.
ghost use Rattle.std.specs.Prelude.{◌↔◌, IsTrue};
ghost use Rattle.dpl_tree.specs.Trees.{LiesApart};
ghost use Rattle.dpl_tree.specs.Windows.{IsWidened};

use dpl_base::{Rect, WideRect};

/// The rectangle with `by` columns and rows more on each side, in database units.
pub fn widened(r: &Rect, by: u32) -> WideRect
    ensures { IsWidened r.now by result }
{
    WideRect::new(
        r.x0 as i64 - by as i64,
        r.y0 as i64 - by as i64,
        r.x1 as i64 + by as i64,
        r.y1 as i64 + by as i64,
    )
}

/// Whether the rectangles have no square in common.
pub(crate) fn lies_apart(window: &WideRect, r: &Rect) -> bool
    ensures { IsTrue result ↔ LiesApart window.now r.now }
{
    if r.x1 as i64 <= window.x0() {
        return true;
    }
    if window.x1() <= r.x0 as i64 {
        return true;
    }
    if r.y1 as i64 <= window.y0() {
        return true;
    }
    if window.y1() <= r.y0 as i64 {
        return true;
    }
    false
}
