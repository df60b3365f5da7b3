//! Slabs of blocks that workers make before the blocks' turn.
ghost use Rattle.std.specs.Prelude.{◌≡◌, ◌+◌, ◌<◌, ◌≤◌, IfOk, IfSome, length};
ghost use Rattle.std.specs.List.{All, Contains};
ghost use Rattle.dpl_spec_split.specs.Loops.{farthest, AreRectsWithin};
ghost use Rattle.dpl_order.specs.Orders.{CornersRise};
ghost use Rattle.dpl_slabs.specs.declared.ahead.Block.{Block as BlockOf};
ghost use Rattle.dpl_slabs.specs.Made.{IsBlock};

use crate::blocks::slabs_of_block;
use crate::made::{InTurn, MOST_WORKERS};
use crate::strips::strip_length;
use dpl_base::Rect;
use std::alloc::{AllocError, Global};
use std::thread::{Threads, map_chunks};

/// The slabs of a block: of so many of the rectangles, from a place on, which are given transposed.
#[derive(Drop)]
pub struct Block {
    pub start: usize,
    pub count: usize,
    pub slabs: Vec<Rect>,
}

/// How many rectangles blocks have on average, at least, where workers share them. Smaller ones aren't worth the memory.
const LARGE: usize = 64;

/// Strips in a row for each worker, with about as many rectangles.
#[derive(Drop)]
pub struct StripShares {
    /// Where those strips begin that are each the first for a worker.
    pub starts: Vec<usize>,
    /// How many strips there are.
    pub strips: usize,
    /// How many rectangles the largest share has.
    pub largest: usize,
}

/// How so many workers share the strips of rectangles. A share begins with the first strip behind each part of the rectangles, of as many for each worker.
pub fn shares(alloc: Global, rects: &[Rect], workers: u32) -> Result<StripShares, AllocError>
    requires rise { CornersRise rects.now }
    requires workers { 1 ≤ workers }
{
    let size = rects.len() / workers as usize;
    let mut starts = Vec::new(alloc);
    let mut strips: usize = 0;
    let mut largest = 0;
    let (mut last, mut start) = (0, 0);
    while start < rects.len() {
        if size.saturating_mul(starts.len()) <= start && starts.len() < workers as usize {
            starts.push(start)?;
            largest = start.saturating_sub(last).max(largest);
            last = start;
        }
        strips = strips.saturating_add(1);
        start += strip_length(&rects[start..]);
    }
    Ok(StripShares {
        starts,
        strips,
        largest: start.saturating_sub(last).max(largest),
    })
}

/// The block from a place on.
fn block_at(alloc: Global, rects: &[Rect], start: usize) -> Result<Block, AllocError>
    requires within { AreRectsWithin farthest rects.now }
    requires rise { CornersRise rects.now }
    requires start { start < length rects.now }
    ensures block { IfOk result (IsBlock rects.now) }
    ensures start { IfOk result (λ b. b.start ≡ start) }
    ensures some { IfOk result (λ b. 0 < b.count) }
    ensures within { IfOk result (λ b. start + b.count ≤ length rects.now) }
{
    let rest = &rects[start..];
    let count = strip_length(rest);
    let mut own = Vec::from_slice(alloc, &rest[..count])?;
    let slabs = slabs_of_block(alloc, &InTurn, own.as_mut_slice())?;
    Ok(Block {
        start,
        count,
        slabs,
    })
}

/// The blocks from a place on, up to another one.
fn blocks_from(
    alloc: Global,
    rects: &[Rect],
    start: usize,
    end: usize,
) -> Result<Vec<Block>, AllocError>
    requires within { AreRectsWithin farthest rects.now }
    requires rise { CornersRise rects.now }
    ensures { IfOk result (λ v. All (IsBlock rects.now) v.items) }
{
    let end = end.min(rects.len());
    let mut blocks = Vec::new(alloc);
    let mut next = start;
    while next < end {
        let block = block_at(alloc, rects, next)?;
        next += block.count;
        blocks.push(block)?;
    }
    Ok(blocks)
}

/// The place of this number in the list, or the one behind all.
pub fn place_of(starts: &[usize], number: usize, behind: usize) -> usize {
    match starts.get(number) {
        Some(start) => *start,
        None => behind,
    }
}

/// The blocks in which rectangles lie, the last first, made by so many workers, or none where blocks are small, or one share has more than two thirds of all rectangles, or more than two even shares of as many workers as slices have: then workers share slices.
pub fn blocks_by<R: Threads + Sync>(
    rt: &R,
    alloc: Global,
    rects: &[Rect],
    workers: u32,
) -> Result<Vec<Block>, AllocError>
    requires within { AreRectsWithin farthest rects.now }
    requires rise { CornersRise rects.now }
    requires workers { 1 ≤ workers }
    ensures { IfOk result (λ v. All (IsBlock rects.now) v.items) }
{
    let mut made = Vec::new(alloc);
    let StripShares {
        starts,
        strips,
        largest,
    } = shares(alloc, rects, workers)?;
    let even = rects.len() / workers.min(MOST_WORKERS) as usize;
    if rects.len() / LARGE < strips || rects.len() / 3 < largest / 2 || even < largest / 2 {
        return Ok(made);
    }
    let lists = map_chunks(
        rt,
        alloc,
        &starts,
        1,
        &|place, share| {
            let end = place_of(&starts, place + share.len(), rects.len());
            blocks_from(alloc, rects, place_of(share, 0, end), end)
        },
    )?;
    for list in lists {
        let mut list = list?;
        made.append(&mut list)?;
    }
    made.reverse();
    Ok(made)
}

/// Takes the block of so many rectangles from this place on from the end of the list, if it is there.
pub fn taken_block(made: &mut Vec<Block>, start: usize, count: usize) -> Option<Block>
    ensures taken { IfSome result (λ b. Contains made.old.items b × (b.start ≡ start) × (b.count ≡ count)) }
    ensures others { (b : BlockOf) → Contains made.new.items b → Contains made.old.items b }
{
    let next = made.last()?;
    if next.start != start || next.count != count {
        return None;
    }
    made.pop()
}
