//! Laying tiles over parts.
ghost use Rattle.std.specs.Prelude.{◌≡◌, ◌∷◌, [], ◌≤◌, IfOk};
ghost use Rattle.dpl_slabs.specs.Parts.{AreParts, union_of};
ghost use Rattle.dpl_tile.specs.Kept.{AreLaid};
ghost use Rattle.dpl_tile.specs.Tiles.{IsBounds};

use crate::bounds::bounds;
use crate::cells::places_of;
use crate::count::is_one_cell;
use crate::grid::{Grid, Place};
use crate::sides::grid_of;
use dpl_base::Rect;
use dpl_slabs::Slabs;
use std::alloc::{AllocError, Global};

/// A grid, and the places of its tiles, by row, then by column.
#[derive(Drop)]
pub(crate) struct Laid {
    pub(crate) grid: Grid,
    pub(crate) places: Vec<Place>,
}

/// The place of the first cell alone.
fn first_place(alloc: Global) -> Result<Vec<Place>, AllocError>
    ensures { IfOk result (λ v. v.items ≡ (0, 0) ∷ []) }
{
    let mut places = Vec::new(alloc);
    places.push((0, 0))?;
    Ok(places)
}

/// The tiles of parts with some square, whose least rectangle this is.
fn lay_over(alloc: Global, parts: &[Slabs], bounds: &Rect, tile: u32) -> Result<Laid, AllocError>
    requires parts { AreParts parts.now }
    requires bounds { IsBounds (union_of parts.now) bounds.now }
    requires some { 1 ≤ tile }
    ensures { IfOk result (λ l. AreLaid parts.now tile l.grid l.places.items) }
{
    let grid = grid_of(parts, bounds, tile);
    if is_one_cell(bounds, &grid) {
        let places = first_place(alloc)?;
        return Ok(Laid { grid, places });
    }
    let places = places_of(alloc, &grid, parts)?;
    Ok(Laid { grid, places })
}

/// The tiles of parts.
pub(crate) fn lay(alloc: Global, parts: &[Slabs], tile: u32) -> Result<Laid, AllocError>
    requires parts { AreParts parts.now }
    requires some { 1 ≤ tile }
    ensures { IfOk result (λ l. AreLaid parts.now tile l.grid l.places.items) }
{
    let Some(bounds) = bounds(parts) else {
        let grid = Grid {
            x: 0,
            y: 0,
            side: 1,
        };
        let places = Vec::new(alloc);
        return Ok(Laid { grid, places });
    };
    lay_over(alloc, parts, &bounds, tile)
}
