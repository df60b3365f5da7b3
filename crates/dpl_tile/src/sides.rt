//! The grid whose cells are large enough.
ghost use Rattle.std.specs.Prelude.{◌≡◌, ◌≤◌};
ghost use Rattle.dpl_slabs.specs.Parts.{AreParts, union_of};
ghost use Rattle.dpl_tile.specs.Kept.{IsSound};
ghost use Rattle.dpl_tile.specs.Tiles.{IsBounds, IsGrid};

use crate::count::is_coarse;
use crate::grid::Grid;
use dpl_base::Rect;
use dpl_slabs::Slabs;

/// The grid of parts, its side as asked, doubled until the cells are large enough.
pub(crate) fn grid_of(parts: &[Slabs], bounds: &Rect, tile: u32) -> Grid
    requires parts { AreParts parts.now }
    requires bounds { IsBounds (union_of parts.now) bounds.now }
    requires some { 1 ≤ tile }
    ensures grid { IsGrid parts.now tile result }
    ensures sound { IsSound result }
    ensures left { result.x ≡ bounds.now.x0 }
    ensures low { result.y ≡ bounds.now.y0 }
{
    let mut grid = Grid {
        x: bounds.x0 as i64,
        y: bounds.y0 as i64,
        side: tile as u64,
    };
    while !is_coarse(bounds, &grid, parts) {
        grid.side *= 2;
    }
    grid
}
