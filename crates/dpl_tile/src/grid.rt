//! A grid of square cells.
ghost use Rattle.std.specs.Prelude.{◌≡◌, ◌<◌, ◌≤◌, ◌^◌, pos, ◌+ℤ◌, ◌≤ℤ◌, unsigned_abs};
ghost use Rattle.dpl_spec_split.specs.Loops.{farthest};
ghost use Rattle.dpl_spec_split.specs.Slabs.{IsSolid};
ghost use Rattle.dpl_tile.specs.Kept.{IsSound, IsOver, IsClose, IsBlockOf, IsSomeBlock};
ghost use Rattle.dpl_tile.specs.Tiles.{cell_at, number_in, cells_met};

use dpl_base::{Rect, WideRect};

/// The row and the column of a cell, each at most 2,000,000,000.
pub type Place = (u32, u32);

/// A grid of square cells: where its first cell begins, and the length of the cells' sides, in database units.
#[derive(Clone, Copy, Drop)]
pub struct Grid {
    pub x: i64,
    pub y: i64,
    pub side: u64,
}

/// The rows and columns of cells from the first up to but not the last.
#[derive(Clone, Copy, Drop)]
pub struct Block {
    pub row0: u32,
    pub row1: u32,
    pub column0: u32,
    pub column1: u32,
}

/// Which row or column of cells a row or column of squares is in.
fn number(side: u64, low: i64, i: i64) -> u32
    requires some { 1 ≤ side }
    requires from { low ≤ℤ i }
    requires low { unsigned_abs low ≤ farthest }
    requires high { unsigned_abs i ≤ farthest }
    ensures value { result ≡ number_in side low i }
    ensures small { result ≤ 2000000000 }
{
    let ahead = (i - low) as u64;
    if ahead < side {
        return 0;
    }
    (ahead / side) as u32
}

/// The coordinate so far above another.
fn above(low: i64, by: u64) -> i64
    requires low { unsigned_abs low ≤ farthest }
    requires by { by ≤ 2 ^ 33 }
    ensures { result ≡ low +ℤ pos by }
{
    low + by as i64
}

impl Grid {
    /// The cell of a place.
    pub(crate) fn cell(&self, place: Place) -> WideRect
        requires sound { IsSound self.now }
        requires close { IsClose self.now place }
        ensures value { result ≡ cell_at self.now place }
        ensures solid { IsSolid result }
    {
        let row = place.0 as u64;
        let column = place.1 as u64;
        WideRect::new(
            above(self.x, column * self.side),
            above(self.y, row * self.side),
            above(self.x, column * self.side + self.side),
            above(self.y, row * self.side + self.side),
        )
    }

    /// The rows and columns of the cells that a rectangle meets.
    pub(crate) fn block(&self, r: &Rect) -> Block
        requires sound { IsSound self.now }
        requires over { IsOver self.now r.now }
        ensures value { IsBlockOf self.now r.now result }
        ensures some { IsSomeBlock result }
    {
        Block {
            row0: number(self.side, self.y, r.y0 as i64),
            row1: number(self.side, self.y, r.y1 as i64 - 1) + 1,
            column0: number(self.side, self.x, r.x0 as i64),
            column1: number(self.side, self.x, r.x1 as i64 - 1) + 1,
        }
    }

    /// How many cells a rectangle meets.
    pub(crate) fn cells_met(&self, r: &Rect) -> u64
        requires sound { IsSound self.now }
        requires over { IsOver self.now r.now }
        ensures value { result ≡ cells_met self.now r.now }
        ensures small { result ≤ 2 ^ 63 }
    {
        let block = self.block(r);
        (block.row1 - block.row0) as u64 * (block.column1 - block.column0) as u64
    }
}
