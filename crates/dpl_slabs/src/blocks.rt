//! Rectangles in blocks of columns, as upright wires are.
ghost use Rattle.std.specs.Prelude.{◌≡◌, ◌<◌, ◌≤◌, IfOk, IfSome, OnOk, length, drop};
ghost use Rattle.std.specs.List.{All};
ghost use Rattle.dpl_spec_split.specs.Squares.{Covers};
ghost use Rattle.dpl_spec_split.specs.Slabs.{AreSlabsOf};
ghost use Rattle.dpl_spec_split.specs.Loops.{farthest, AreRectsWithin};
ghost use Rattle.dpl_spec_split.specs.Zones.{transposed};
ghost use Rattle.dpl_order.specs.Orders.{CornersRise};
ghost use Rattle.dpl_slabs.specs.Blocks.{AddsBlock, AreBlocksOf, AreScatteredOf, LieLeft, EitherCovers};
ghost use Rattle.dpl_slabs.specs.Cells.{transposed_rects};
ghost use Rattle.dpl_slabs.specs.Made.{IsBlockFrom};
ghost use Rattle.dpl_slabs.specs.Scattered.{AreScattered};

use crate::ahead::{Block, taken_block};
use crate::made::Slicing;
use crate::row::is_row;
use crate::slices::TALL;
use crate::strips::{slabs_by_rows, strip_length};
use dpl_base::{Rect, transpose_all};
use dpl_order::sort_slice_by_corner;
use std::alloc::{AllocError, Global};

/// Left of how many columns one is looked for that no rectangle has.
const COLUMNS: usize = 4096;

/// Whether a strip of rectangles, which go by first row, has so many that they are better told apart by columns first.
pub fn has_tall_strip(rects: &[Rect]) -> bool
    requires { CornersRise rects.now }
{
    let mut rest = rects;
    while !rest.is_empty() {
        let (strip, others) = rest.split_at(strip_length(rest));
        if strip.len() >= TALL && !is_row(strip) {
            return true;
        }
        rest = others;
    }
    false
}

/// The leftmost and the rightmost column in which rectangles begin.
fn first_columns(rects: &[Rect]) -> (i32, i32) {
    let (mut first, mut last) = (i32::MAX, i32::MIN);
    for r in rects {
        first = first.min(r.x0);
        last = last.max(r.x0);
    }
    (first, last)
}

/// Whether a column that no rectangle has lies left of one of 4,096 columns at even spaces. Where none does, there are hardly two blocks, and it isn't worth two sorts to tell.
pub fn has_open_column(rects: &[Rect]) -> bool {
    let (first, last) = first_columns(rects);
    let width = first.abs_diff(last) / COLUMNS as u32 + 1;
    let mut reached = [first; COLUMNS];
    for r in rects {
        let part = first.abs_diff(r.x0) / width;
        if let Some(end) = reached.get_mut(part as usize) {
            *end = r.x1.max(*end);
        }
    }
    let mut start = first as i64;
    let mut end = first;
    for reach in &reached {
        if start > last as i64 {
            return false;
        }
        if (end as i64) < start {
            return true;
        }
        end = end.max(*reach);
        start = start.saturating_add(width as i64);
    }
    false
}

/// The slabs of a block, whose rectangles are given transposed. They are transposed back and sorted where they stand.
pub fn slabs_of_block<S: Slicing>(
    alloc: Global,
    slicing: &S,
    block: &mut [Rect],
) -> Result<Vec<Rect>, AllocError>
    requires ready { S.ready }
    requires within { AreRectsWithin farthest block.old }
    ensures slabs { IfOk result (λ v. AreSlabsOf (Covers (transposed_rects block.old)) v.items) }
    ensures len { length block.new ≡ length block.old }
{
    transpose_all(block);
    sort_slice_by_corner(block);
    slabs_by_rows(alloc, slicing, block)
}

/// Adds the slabs of a block, whose rectangles are given transposed, and which lies right of all slabs so far. They are made here where they weren't made before the block's turn.
fn add_block<S: Slicing>(
    alloc: Global,
    slicing: &S,
    slabs: &mut Vec<Rect>,
    block: &mut [Rect],
    made: Option<Block>,
) -> Result<(), AllocError>
    requires ready { S.ready }
    requires within { AreRectsWithin farthest block.old }
    requires scattered { AreScattered slabs.old.items }
    requires left { LieLeft slabs.old.items block.old }
    requires made { IfSome made (λ b. AreSlabsOf (Covers (transposed_rects block.old)) b.slabs.items) }
    ensures adds { OnOk result (AddsBlock slabs.old.items slabs.new.items block.old) }
    ensures len { length block.new ≡ length block.old }
{
    if let Some(made) = made {
        slabs.extend_from_slice(&made.slabs)?;
        return Ok(());
    }
    let more = slabs_of_block(alloc, slicing, block)?;
    slabs.extend_from_slice(&more)?;
    Ok(())
}

/// Adds the slabs of the first block of the rectangles from a place on, which are given transposed and lie right of all slabs so far. Some of the blocks from there on were made before their turn. Answers where the block ends.
fn add_block_at<S: Slicing>(
    alloc: Global,
    slicing: &S,
    made: &mut Vec<Block>,
    slabs: &mut Vec<Rect>,
    rects: &mut [Rect],
    start: usize,
) -> Result<usize, AllocError>
    requires ready { S.ready }
    requires some { start < length rects.old }
    requires made { All (IsBlockFrom start rects.old) made.old.items }
    requires blocks { AreBlocksOf (EitherCovers slabs.old.items (drop start rects.old)) slabs.old.items (drop start rects.old) }
    ensures more { IfOk result (λ end. start < end) }
    ensures within { IfOk result (λ end. end ≤ length rects.new) }
    ensures len { length rects.new ≡ length rects.old }
    ensures made { IfOk result (λ end. All (IsBlockFrom end rects.new) made.new.items) }
    ensures blocks { IfOk result (λ end. AreBlocksOf (EitherCovers slabs.old.items (drop start rects.old)) slabs.new.items (drop end rects.new)) }
{
    let (_, rest) = rects.split_at_mut(start);
    let count = strip_length(rest);
    let (block, _) = rest.split_at_mut(count);
    let found = taken_block(made, start, count);
    add_block(alloc, slicing, slabs, block, found)?;
    Ok(start + count)
}

/// The slabs of rectangles' squares, block by block. The rectangles are given transposed, and are transposed back block by block where they stand, but stay as they are where the block's slabs were made before its turn.
pub fn slabs_of_blocks<S: Slicing>(
    alloc: Global,
    slicing: &S,
    rects: &mut [Rect],
) -> Result<Vec<Rect>, AllocError>
    requires ready { S.ready }
    requires within { AreRectsWithin farthest rects.old }
    requires rise { CornersRise rects.old }
    ensures { IfOk result (λ v. AreScatteredOf (transposed (Covers rects.old)) v.items) }
{
    let mut made = slicing.blocks(alloc, rects)?;
    let mut slabs = Vec::with_capacity(alloc, rects.len())?;
    let mut start = 0;
    while start < rects.len() {
        start = add_block_at(alloc, slicing, &mut made, &mut slabs, rects, start)?;
    }
    Ok(slabs)
}
