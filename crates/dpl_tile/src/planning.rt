//! Making a plan of tiles.
ghost use Rattle.std.specs.Prelude.{◌≡◌, ◌≤◌, IfOk, length};
ghost use Rattle.dpl_tile.specs.Plans.{IsPlan};

use crate::items::items_of;
use crate::laying::lay;
use crate::meetings::meetings_of;
use crate::plans::Plan;
use dpl_base::{Id, Spacing};
use dpl_join::Join;
use dpl_slabs::Parts;
use std::alloc::{AllocError, Global};

/// The tiles of the pieces of a layer, one owner to each piece. The spacing and the tile, which is at least 1, are in database units. The grid begins at the least column and the least row of all pieces; a tile's side is `tile`, doubled until there are at most 16,777,216 pairs of a piece's slab and a cell that it meets, or one cell has all; a cell with no square is no tile. Fails only out of memory.
pub fn plan<'a>(
    alloc: Global,
    parts: &'a Parts,
    owner: &'a [Id],
    spacing: Spacing,
    tile: u32,
) -> Result<Plan<'a>, AllocError>
    requires corner { spacing.corner ≤ spacing.rule }
    requires owners { length owner.now ≡ length parts.now }
    requires tile { 1 ≤ tile }
    ensures { IfOk result (λ p. IsPlan parts.now owner.now spacing tile p) }
{
    let laid = lay(alloc, parts.items(), tile)?;
    let items = items_of(alloc, parts.items())?;
    let join = Join::of(alloc, items, spacing.rule)?;
    let meetings = meetings_of(alloc, &laid.grid, &join, owner, spacing)?;
    let items = join.into_items();
    Ok(Plan {
        parts,
        owners: owner,
        spacing,
        items,
        meetings,
        grid: laid.grid,
        places: laid.places,
    })
}
