//! How many pairs of a slab and a cell there are.
ghost use Rattle.std.specs.Prelude.{◌≡◌, ◌+◌, ◌<◌, ◌≤◌, ◌^◌, ◌↔◌, IsTrue, IsFalse, IsNone, IfSome, sum_by};
ghost use Rattle.std.specs.List.{All};
ghost use Rattle.dpl_slabs.specs.Parts.{union_of};
ghost use Rattle.dpl_tile.specs.Kept.{IsSound, IsOver, AreOver};
ghost use Rattle.dpl_tile.specs.Tiles.{IsBounds, IsCoarse, LiesIn, cell_at, cells_met, pairs_of, most_pairs};

use crate::grid::Grid;
use dpl_base::Rect;
use dpl_slabs::Slabs;

/// The most pairs of a slab and a cell that a plan is made of.
pub(crate) const MOST_PAIRS: u64 = 16_777_216;

/// So many cells as before and those that the rectangles meet, unless they are too many.
fn add_cells(before: u64, grid: &Grid, rects: &[Rect]) -> Option<u64>
    requires sound { IsSound grid.now }
    requires over { AreOver grid.now rects.now }
    requires few { before ≤ most_pairs }
    ensures some { IfSome result (λ n. (n ≡ before + sum_by (cells_met grid.now) rects.now) × (n ≤ most_pairs)) }
    ensures none { IsNone result → most_pairs < before + sum_by (cells_met grid.now) rects.now }
{
    let mut n = before;
    for r in rects {
        n += grid.cells_met(r);
        if n > MOST_PAIRS {
            return None;
        }
    }
    Some(n)
}

/// Whether there are few pairs enough of a slab and a cell that it meets.
fn has_few_pairs(parts: &[Slabs], grid: &Grid) -> bool
    requires sound { IsSound grid.now }
    requires over { All (AreOver grid.now) parts.now }
    ensures { IsTrue result ↔ (pairs_of grid.now parts.now ≤ most_pairs) }
{
    let mut n = 0;
    for part in parts {
        let Some(more) = add_cells(n, grid, part.rects()) else {
            return false;
        };
        n = more;
    }
    true
}

/// Whether the first cell has all squares.
pub(crate) fn is_one_cell(bounds: &Rect, grid: &Grid) -> bool
    requires sound { IsSound grid.now }
    requires over { IsOver grid.now bounds.now }
    ensures one { IsTrue result ↔ LiesIn bounds.now (cell_at grid.now (0, 0)) }
    ensures short { IsFalse result → grid.now.side ≤ 2 ^ 31 }
{
    if (bounds.x1 as i64 - grid.x) as u64 > grid.side {
        return false;
    }
    if (bounds.y1 as i64 - grid.y) as u64 > grid.side {
        return false;
    }
    true
}

/// Whether the grid's cells are large enough.
pub(crate) fn is_coarse(bounds: &Rect, grid: &Grid, parts: &[Slabs]) -> bool
    requires sound { IsSound grid.now }
    requires over { All (AreOver grid.now) parts.now }
    requires bounds { IsBounds (union_of parts.now) bounds.now }
    requires corner { IsOver grid.now bounds.now }
    ensures coarse { IsTrue result ↔ IsCoarse parts.now grid.now }
    ensures short { IsFalse result → grid.now.side ≤ 2 ^ 31 }
{
    if is_one_cell(bounds, grid) {
        return true;
    }
    has_few_pairs(parts, grid)
}
