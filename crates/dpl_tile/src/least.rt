//! How small the tiles of a layer may be.
ghost use Rattle.std.specs.Prelude.{◌≤◌};
ghost use Rattle.dpl_tile.specs.Tiles.{IsDoubled};

use dpl_base::Rect;
use dpl_slabs::{Parts, Slabs};

/// How many cells a slab may meet on the average.
const CELLS_A_SLAB: u64 = 2;

/// How many cells more all slabs may meet.
const CELLS_MORE: u64 = 65_536;

/// About how many cells of this side a slab meets: no fewer than it would in a grid that begins at its corner.
fn cells(r: &Rect, side: u32) -> u64
    requires { 1 ≤ side }
{
    let columns = r.x0.abs_diff(r.x1) as u64 / side as u64;
    let rows = r.y0.abs_diff(r.y1) as u64 / side as u64;
    columns
        .saturating_add(1)
        .saturating_mul(rows.saturating_add(1))
}

/// Whether so small cells are many for the slabs.
fn are_many(parts: &[Slabs], side: u32) -> bool
    requires { 1 ≤ side }
{
    let mut met: u64 = 0;
    let mut most = CELLS_MORE;
    for part in parts {
        for r in part.rects() {
            met = met.saturating_add(cells(r, side));
            most = most.saturating_add(CELLS_A_SLAB);
        }
    }
    met > most
}

/// The side with which to lay tiles over a layer: `tile`, doubled while the slabs would meet more than about two cells
/// a slab and 65,536 more and twice the side fits a `u32`. So a large shape isn't cut into many more tiles than the
/// layer has slabs. Both sides are in database units.
pub fn side_for(parts: &Parts, tile: u32) -> u32
    requires { 1 ≤ tile }
    ensures { IsDoubled tile result }
{
    let mut side = tile;
    while are_many(parts.items(), side) {
        let Some(twice) = side.checked_mul(2) else {
            return side;
        };
        side = twice;
    }
    side
}
