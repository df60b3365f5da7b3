//! Worked layouts of one bar or square to a piece, and their tiles.
use crate::bars::{Corners, SPACING, features_of};
use dpl_base::Id;
use dpl_slabs::Parts;
use dpl_tile::{Plan, plan};
use std::alloc::{AllocError, Global};

/// The corners of a cell, which may reach past the layer.
type CellCorners = (i64, i64, i64, i64);

/// Two bars of 64000 columns.
const BARS: [Corners; 2] = [(0, 0, 64000, 20), (0, 40, 64000, 60)];

/// Two squares, one further up and right.
const SQUARES: [Corners; 2] = [(0, 0, 10, 10), (28, 33, 38, 43)];

/// A plate of 4097 times 4096 squares.
const PLATE: [Corners; 1] = [(-3, 7, 4094, 4103)];

/// Rectangles, the owners of their pieces, a tile's side as asked, the number of tiles, and the last cell.
static ROWS: [(&[Corners], &[Id], u32, u32, CellCorners); 6] = [
    (&[], &[], 64, 0, (0, 0, 0, 0)),
    (&BARS, &[0, 1], 64, 1000, (63936, 0, 64000, 64)),
    (
        &BARS,
        &[0, 1],
        1_073_741_824,
        1,
        (0, 0, 1_073_741_824, 1_073_741_824),
    ),
    (&SQUARES, &[0, 1], 1, 200, (37, 42, 38, 43)),
    (&SQUARES, &[0, 1], 16, 3, (32, 32, 48, 48)),
    // 4097 times 4096 pairs are too many
    (&PLATE, &[0], 1, 4_196_352, (4093, 4101, 4095, 4103)),
];

/// Whether so many tiles are laid over pieces of these owners, and this last cell.
fn are_laid(
    alloc: Global,
    pieces: &Parts,
    owner: &[Id],
    tile: u32,
    tiles: u32,
    last: CellCorners,
) -> Result<bool, AllocError> {
    if pieces.items().len() != owner.len() || tile < 1 {
        return Ok(false);
    }
    let plan = plan(alloc, pieces, owner, SPACING, tile)?;
    Ok(plan.tiles() == tiles && last_cell(&plan) == last)
}

/// Whether so many tiles are laid over the pieces of a layout, and this last cell.
fn lays(
    alloc: Global,
    rects: &[Corners],
    owner: &[Id],
    tile: u32,
    tiles: u32,
    last: CellCorners,
) -> Result<bool, AllocError> {
    let pieces = features_of(alloc, rects)?;
    are_laid(alloc, &pieces, owner, tile, tiles, last)
}

/// The corners of a plan's last cell, which are all 0 where there is none.
fn last_cell(plan: &Plan) -> CellCorners {
    let count = plan.tiles();
    if count == 0 {
        return (0, 0, 0, 0);
    }
    let cell = plan.cell(count - 1);
    (cell.x0(), cell.y0(), cell.x1(), cell.y1())
}

#[test]
fn lays_tiles(rt: HostRuntime) {
    for &(rects, owner, tile, tiles, last) in &ROWS {
        assert!(rt; lays(rt.alloc(), rects, owner, tile, tiles, last) == Ok(true));
    }
}
