//! Blocks over items, and levels of them, each over the one below.
ghost use Rattle.std.specs.Prelude.{◌≡◌, ℕ, ◌+◌, ◌*◌, ◌<◌, ◌≤◌, IfOk, length, map, slice_index_or};
ghost use Rattle.dpl_tree.specs.declared.blocks.Block.{Block};
ghost use Rattle.dpl_tree.specs.Blocks.{IsIndex, IsLevelOver, IsUnder, same_block, stored_block};
ghost use Rattle.dpl_tree.specs.StoredItems.{item_of};

use crate::items::StoredItem;
use dpl_base::{Listed, Rect};
use std::alloc::{AllocError, Global};

/// How many items stand in a block, and how many blocks in a block of the next level.
pub(crate) const FAN: usize = 8;

/// What bounds the items of a block, and their owners, from the least to the greatest.
#[derive(Clone, Copy, Drop)]
pub(crate) struct Block {
    pub(crate) bounds: Rect,
    pub(crate) least: u32,
    pub(crate) greatest: u32,
}

/// What has a block of its own.
pub(crate) trait Bounded {
    ghost block_of: { Self → Block };

    fn block(&self) -> Block
        ensures { result ≡ block_of self.now };
}

impl Bounded for StoredItem {
    ghost block_of = { stored_block };

    fn block(&self) -> Block
        ensures { result ≡ stored_block self.now }
    {
        Block {
            bounds: self.rect,
            least: self.owner,
            greatest: self.owner,
        }
    }
}

impl Bounded for Block {
    ghost block_of = { same_block };

    fn block(&self) -> Block
        ensures { result ≡ same_block self.now }
    {
        *self
    }
}

/// A block over two others.
fn over(a: &Block, b: &Block) -> Block
    ensures first { IsUnder a.now result }
    ensures second { IsUnder b.now result }
{
    Block {
        bounds: Rect {
            x0: a.bounds.x0.min(b.bounds.x0),
            y0: a.bounds.y0.min(b.bounds.y0),
            x1: a.bounds.x1.max(b.bounds.x1),
            y1: a.bounds.y1.max(b.bounds.y1),
        },
        least: a.least.min(b.least),
        greatest: a.greatest.max(b.greatest),
    }
}

/// The block over the things of run number `run`.
fn block_over<T: Bounded>(things: &[T], run: usize) -> Block
    requires { run * 8 < length things.now }
    ensures { (i : ℕ) (d : T) → run * 8 ≤ i → i < run * 8 + 8 → i < length things.now → IsUnder (T.block_of (slice_index_or things.now i d)) result }
{
    let first = run * FAN;
    let end = things.len().min(first.saturating_add(FAN));
    let mut block = things[first].block();
    for i in first + 1..end {
        block = over(&block, &things[i].block());
    }
    block
}

/// The level over things.
fn level_over<T: Bounded>(alloc: Global, things: &[T]) -> Result<Vec<Block>, AllocError>
    ensures { IfOk result (λ v. IsLevelOver T.block_of things.now 8 v.items) }
{
    let count = things.len().div_ceil(FAN);
    let mut level = Vec::with_capacity(alloc, count)?;
    for run in 0..count {
        level.push(block_over(things, run))?;
    }
    Ok(level)
}

/// The levels over items, each over the one below it, until one has no more than eight blocks.
pub(crate) fn levels_over(
    alloc: Global,
    items: &[StoredItem],
) -> Result<Vec<Listed<Block>>, AllocError>
    ensures { IfOk result (λ v. IsIndex (map item_of items.now) v.items) }
{
    let mut levels = Vec::new(alloc);
    if items.len() <= FAN {
        return Ok(levels);
    }
    let mut top = level_over(alloc, items)?;
    while top.len() > FAN {
        let next = level_over(alloc, top.as_slice())?;
        levels.push(Listed::of(top))?;
        top = next;
    }
    levels.push(Listed::of(top))?;
    Ok(levels)
}
