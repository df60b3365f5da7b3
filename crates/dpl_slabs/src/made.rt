//! Rectangles of loops, and pieces of slices, and slabs of blocks and strips that workers make before their turn.
ghost use Rattle.std.specs.Prelude.{◌≡◌, ◌≤◌, ⊤, IfOk, IfSome};
ghost use Rattle.std.specs.List.{All, Contains};
ghost use Rattle.std.specs.Thread.{IsSync};
ghost use Rattle.dpl_spec_split.specs.Loops.{farthest, AreLoopsWithin, AreRectsWithin, SomeLoopCovers};
ghost use Rattle.dpl_slabs.specs.Loops.{AreRectsOf};
ghost use Rattle.dpl_slabs.specs.declared.made.Slice.{Slice as SliceOf};
ghost use Rattle.dpl_order.specs.Orders.{CornersRise};
ghost use Rattle.dpl_slabs.specs.Made.{IsBlock, IsSlice, IsSwept};

use crate::ahead::{Block, blocks_by};
use crate::loops::{rects_of_dealt, rects_of_loops_by};
use crate::slices::{BOTTOM, TOP, most_pieces, pieces_of_slice};
use crate::swept::{Swept, strips_by};
use dpl_base::{Loop, Rect};
use std::alloc::{AllocError, Global};
use std::thread::{Threads, map_chunks};

/// How many workers make slices at most: the pieces of one slice of each are in memory, whatever their number.
pub const MOST_WORKERS: u32 = 8;

/// Pieces of the squares in rows `low` to `high - 1`.
#[derive(Drop)]
pub struct Slice {
    pub low: i32,
    pub high: i32,
    pub pieces: Vec<Rect>,
}

/// Who makes rectangles of loops, and pieces of slices, and slabs of blocks and strips before their turn.
pub trait Slicing {
    // Whether they can be made so: what workers share is `Sync`.
    ghost ready: { Type 0 };

    /// Rectangles that have the squares of loops.
    fn rects_of_loops(&self, alloc: Global, loops: &[Loop]) -> Result<Vec<Rect>, AllocError>
        requires ready { ready }
        requires loops { AreLoopsWithin farthest loops.now }
        ensures { IfOk result (λ v. AreRectsOf (SomeLoopCovers loops.now) v.items) };

    /// Some of the slices between the cuts, the highest first. All others are made at their turn.
    fn made(
        &self,
        alloc: Global,
        rects: &[Rect],
        holes: &[Rect],
        cuts: &[i32],
    ) -> Result<Vec<Slice>, AllocError>
        requires ready { ready }
        requires rects { AreRectsWithin farthest rects.now }
        requires holes { AreRectsWithin farthest holes.now }
        ensures { IfOk result (λ v. All (IsSlice rects.now holes.now) v.items) };

    /// The slabs of some of the blocks in which rectangles lie, the last block first. The rectangles are given transposed, by first row. All other blocks are made at their turn.
    fn blocks(&self, alloc: Global, rects: &[Rect]) -> Result<Vec<Block>, AllocError>
        requires ready { ready }
        requires within { AreRectsWithin farthest rects.now }
        requires rise { CornersRise rects.now }
        ensures { IfOk result (λ v. All (IsBlock rects.now) v.items) };

    /// The slabs of some of the strips of the rectangles, which go by first row, the last strips first. All other strips are made at their turn.
    fn strips(&self, alloc: Global, rects: &[Rect]) -> Result<Vec<Swept>, AllocError>
        requires ready { ready }
        requires within { AreRectsWithin farthest rects.now }
        requires rise { CornersRise rects.now }
        ensures { IfOk result (λ v. All (IsSwept rects.now) v.items) };
}

/// One thread, which sweeps loops one after the other, and makes no slice, block or strip before its turn: so the pieces of one slice alone are in memory beside those that are put together.
pub struct InTurn;

impl Slicing for InTurn {
    ghost ready = { ⊤ };

    fn rects_of_loops(&self, alloc: Global, loops: &[Loop]) -> Result<Vec<Rect>, AllocError> {
        rects_of_dealt(alloc, loops, 0, 1)
    }

    fn made(
        &self,
        alloc: Global,
        _rects: &[Rect],
        _holes: &[Rect],
        _cuts: &[i32],
    ) -> Result<Vec<Slice>, AllocError> {
        Ok(Vec::new(alloc))
    }

    fn blocks(&self, alloc: Global, _rects: &[Rect]) -> Result<Vec<Block>, AllocError> {
        Ok(Vec::new(alloc))
    }

    fn strips(&self, alloc: Global, _rects: &[Rect]) -> Result<Vec<Swept>, AllocError> {
        Ok(Vec::new(alloc))
    }
}

/// So many workers, to whom loops are dealt, and of whom each has as many slices to make, or blocks or strips of about as many rectangles. One alone is as `InTurn`.
#[derive(Drop)]
pub struct ByWorkers<'a, R> {
    pub rt: &'a R,
    pub workers: u32,
}

impl<R: Threads + Sync> Slicing for ByWorkers<'_, R> {
    ghost ready = { IsSync R.row };

    fn rects_of_loops(&self, alloc: Global, loops: &[Loop]) -> Result<Vec<Rect>, AllocError> {
        rects_of_loops_by(self.rt, alloc, loops, self.workers)
    }

    fn made(
        &self,
        alloc: Global,
        rects: &[Rect],
        holes: &[Rect],
        cuts: &[i32],
    ) -> Result<Vec<Slice>, AllocError> {
        if self.workers <= 1 {
            return Ok(Vec::new(alloc));
        }
        made_by(
            self.rt,
            alloc,
            rects,
            holes,
            cuts,
            self.workers.min(MOST_WORKERS),
        )
    }

    fn blocks(&self, alloc: Global, rects: &[Rect]) -> Result<Vec<Block>, AllocError> {
        if self.workers <= 1 {
            return Ok(Vec::new(alloc));
        }
        blocks_by(self.rt, alloc, rects, self.workers)
    }

    fn strips(&self, alloc: Global, rects: &[Rect]) -> Result<Vec<Swept>, AllocError> {
        strips_by(self.rt, alloc, rects, self.workers)
    }
}

/// The slices between the cuts, the highest first, made by so many workers.
fn made_by<R: Threads + Sync>(
    rt: &R,
    alloc: Global,
    rects: &[Rect],
    holes: &[Rect],
    cuts: &[i32],
    workers: u32,
) -> Result<Vec<Slice>, AllocError>
    requires rects { AreRectsWithin farthest rects.now }
    requires holes { AreRectsWithin farthest holes.now }
    requires workers { 1 ≤ workers }
    ensures { IfOk result (λ v. All (IsSlice rects.now holes.now) v.items) }
{
    let mut ends = Vec::from_slice(alloc, cuts)?;
    ends.push(TOP)?;
    let size = ends.len().div_ceil(workers as usize).max(1);
    let most = most_pieces(rects, holes) / workers as usize;
    let lists = map_chunks(
        rt,
        alloc,
        &ends,
        size,
        &|place, ends| { slices_from(alloc, rects, holes, start_of(cuts, place), ends, most) },
    )?;
    let mut made = Vec::new(alloc);
    for list in lists {
        let mut list = list?;
        made.append(&mut list)?;
    }
    made.reverse();
    Ok(made)
}

/// The row in which the slice of this number begins.
fn start_of(cuts: &[i32], number: usize) -> i32 {
    if number == 0 {
        return BOTTOM;
    }
    match cuts.get(number - 1) {
        Some(cut) => *cut,
        None => TOP,
    }
}

/// The slices from row `low` on that end at these rows, until they have more pieces than so many.
fn slices_from(
    alloc: Global,
    rects: &[Rect],
    holes: &[Rect],
    low: i32,
    ends: &[i32],
    most: usize,
) -> Result<Vec<Slice>, AllocError>
    requires rects { AreRectsWithin farthest rects.now }
    requires holes { AreRectsWithin farthest holes.now }
    ensures { IfOk result (λ v. All (IsSlice rects.now holes.now) v.items) }
{
    let mut made = Vec::with_capacity(alloc, ends.len())?;
    let mut low = low;
    let mut left = most;
    for &high in ends {
        let pieces = pieces_of_slice(alloc, rects, holes, low, high)?;
        let count = pieces.len();
        made.push(Slice { low, high, pieces })?;
        if left < count {
            return Ok(made);
        }
        left -= count;
        low = high;
    }
    Ok(made)
}

/// Takes the slice of these rows from the end of the list, if it is there.
pub fn taken(made: &mut Vec<Slice>, low: i32, high: i32) -> Option<Slice>
    ensures taken { IfSome result (λ s. Contains made.old.items s × (s.low ≡ low) × (s.high ≡ high)) }
    ensures others { (s : SliceOf) → Contains made.new.items s → Contains made.old.items s }
{
    let next = made.last()?;
    if next.low != low || next.high != high {
        return None;
    }
    made.pop()
}
