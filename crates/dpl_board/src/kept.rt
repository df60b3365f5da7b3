//! Blocks by first tile, their summaries, and which of them are halves of a block.
ghost use Rattle.std.specs.Prelude.{◌≡◌, ◌≢◌, ◌+◌, ◌^◌, ◌<◌, ◌≤◌, ℕ, [], None, Some, length, slice_index_or, vec_len, vec_capacity, slice_set, IsTrue, ◌↔◌, IfOk};
ghost use Rattle.std.specs.List.{All};
ghost use Rattle.dpl_board.specs.Starts.{AreAligned, blocks_of};
ghost use Rattle.dpl_board.specs.Tournaments.{IsTournament, leaf_in};
ghost use Rattle.dpl_board.specs.Blocks.{AreBlocks, AreReady, IsHalved, IsNoted, IsWholeAt, end_of, first_in, middle_in, sums_at};

use crate::tournament::Tournament;
use dpl_stars::Joined;
use std::alloc::{AllocError, Global};

/// Blocks, and the summary of each. Block (k, i) has 2^k tiles, from i * 2^k on.
#[derive(Drop)]
pub(crate) struct Kept {
    /// For each tile the k of the block that begins there; none where none does.
    pub starts: Vec<Option<u32>>,
    /// For each tile the summary of the block that begins there; one without rows where none does.
    pub sums: Vec<Joined>,
    /// For each tile the block whose second half begins there, where both its halves are kept.
    pub ready: Tournament,
    /// Room for a list of the blocks.
    pub list: Vec<(u32, u32)>,
}

/// The first tile of a block.
pub(crate) fn first_of(block: (u32, u32)) -> usize
    requires { block.0 ≤ 32 }
    ensures { result ≡ first_in block }
{
    (block.1 as usize) << block.0
}

/// Where the second half of a block begins.
pub(crate) fn middle_of(block: (u32, u32)) -> usize
    requires { (0 < block.0) × (block.0 ≤ 32) }
    ensures { result ≡ middle_in block }
{
    (2 * block.1 as usize + 1) << (block.0 - 1)
}

/// Whether the block of 2^k tiles from this one on is there.
fn begins(starts: &[Option<u32>], tile: usize, k: u32) -> bool
    ensures { IsTrue result ↔ (slice_index_or starts.now tile None ≡ Some k) }
{
    tile < starts.len() && starts[tile] == Some(k)
}

/// The block of which the one that begins at this tile is a half, if its other half is there.
fn whole_at(starts: &[Option<u32>], tile: usize) -> Option<(u32, u32)>
    requires aligned { AreAligned starts.now }
    requires blocks { AreBlocks (blocks_of starts.now) }
    requires tile { tile < length starts.now }
    ensures { IsWholeAt (blocks_of starts.now) tile result }
{
    let Some(k) = starts[tile] else {
        return None;
    };
    let whole = (k + 1, (tile >> (k + 1)) as u32);
    if begins(starts, first_of(whole), k) && begins(starts, middle_of(whole), k) {
        Some(whole)
    } else {
        None
    }
}

/// A table of so many tiles at which no block begins.
fn bare_starts(alloc: Global, tiles: u32) -> Result<Vec<Option<u32>>, AllocError>
    ensures len { IfOk result (λ v. vec_len v ≡ tiles) }
    ensures bare { IfOk result (λ v. (tile : ℕ) → slice_index_or v.items tile None ≡ None) }
{
    vec![in alloc; None; tiles as usize]
}

/// So many summaries without rows.
fn bare_sums(alloc: Global, tiles: u32) -> Result<Vec<Joined>, AllocError>
    ensures { IfOk result (λ v. vec_len v ≡ tiles) }
{
    let mut sums = Vec::with_capacity(alloc, tiles as usize)?;
    for _made in 0..tiles {
        sums.push(Joined::new(alloc))?;
    }
    Ok(sums)
}

impl Kept {
    /// No blocks of so many tiles.
    pub fn new(alloc: Global, tiles: u32) -> Result<Kept, AllocError>
        ensures starts { IfOk result (λ k. vec_len k.starts ≡ tiles) }
        ensures aligned { IfOk result (λ k. AreAligned k.starts.items) }
        ensures blocks { IfOk result (λ k. blocks_of k.starts.items ≡ []) }
        ensures sums { IfOk result (λ k. vec_len k.sums ≡ tiles) }
        ensures leaves { IfOk result (λ k. k.ready.leaves ≡ tiles) }
        ensures tree { IfOk result (λ k. IsTournament k.ready) }
        ensures none { IfOk result (λ k. (leaf : ℕ) → leaf_in k.ready leaf ≡ None) }
        ensures room { IfOk result (λ k. tiles ≤ vec_capacity k.list) }
    {
        Ok(Kept {
            starts: bare_starts(alloc, tiles)?,
            sums: bare_sums(alloc, tiles)?,
            ready: Tournament::new(alloc, tiles)?,
            list: Vec::with_capacity(alloc, tiles as usize)?,
        })
    }

    /// Adds a block of one tile.
    pub fn keep(&mut self, tile: u32, sum: Joined)
        requires starts { tile < vec_len self.old.starts }
        requires sums { tile < vec_len self.old.sums }
        ensures starts { self.new.starts.items ≡ slice_set self.old.starts.items tile (Some 0) }
        ensures sums { self.new.sums.items ≡ slice_set self.old.sums.items tile sum }
        ensures ready { self.new.ready ≡ self.old.ready }
        ensures list { self.new.list ≡ self.old.list }
    {
        self.starts[tile as usize] = Some(0);
        self.sums[tile as usize] = sum;
    }

    /// Whether both halves of a block are there.
    pub fn is_ready(&self, block: (u32, u32)) -> bool
        requires blocks { AreBlocks (blocks_of self.now.starts.items) }
        requires ready { AreReady (blocks_of self.now.starts.items) self.now.ready }
        ensures { IsTrue result ↔ IsHalved (blocks_of self.now.starts.items) block }
    {
        if block.0 == 0 || block.0 > 32 {
            return false;
        }
        let middle = middle_of(block);
        if middle >= self.ready.leaves as usize {
            return false;
        }
        match self.ready.get(middle) {
            Some(found) => found.0 == block.0 && found.1 == block.1,
            None => false,
        }
    }

    /// Notes that both halves of a block are there, where the block that begins at this tile is one of them.
    pub fn note(&mut self, tile: usize)
        requires aligned { AreAligned self.old.starts.items }
        requires blocks { AreBlocks (blocks_of self.old.starts.items) }
        requires tile { tile < vec_len self.old.starts }
        requires tree { IsTournament self.old.ready }
        requires within { All (λ (b : ℕ × ℕ). end_of b ≤ self.old.ready.leaves) (blocks_of self.old.starts.items) }
        ensures starts { self.new.starts.items ≡ self.old.starts.items }
        ensures sums { self.new.sums.items ≡ self.old.sums.items }
        ensures list { self.new.list ≡ self.old.list }
        ensures noted { IsNoted (blocks_of self.old.starts.items) tile self.old.ready self.new.ready }
    {
        if let Some(block) = whole_at(&self.starts, tile) {
            self.ready.set(middle_of(block), Some(block));
        }
    }

    /// Puts a block whose halves are both there in their place.
    pub fn fold(&mut self, alloc: Global, block: (u32, u32), sum: Joined)
        requires blocks { AreBlocks (blocks_of self.old.starts.items) }
        requires halved { IsHalved (blocks_of self.old.starts.items) block }
        requires within { All (λ (b : ℕ × ℕ). end_of b ≤ self.old.ready.leaves) (blocks_of self.old.starts.items) }
        requires starts { vec_len self.old.starts ≡ self.old.ready.leaves }
        requires sums { vec_len self.old.sums ≡ self.old.ready.leaves }
        requires tree { IsTournament self.old.ready }
        ensures starts { self.new.starts.items ≡ slice_set (slice_set self.old.starts.items (middle_in block) None) (first_in block) (Some block.0) }
        ensures sums { (bare : Joined) × (self.new.sums.items ≡ slice_set (slice_set self.old.sums.items (middle_in block) bare) (first_in block) sum) }
        ensures tree { IsTournament self.new.ready }
        ensures leaves { self.new.ready.leaves ≡ self.old.ready.leaves }
        ensures leaf { leaf_in self.new.ready (middle_in block) ≡ None }
        ensures others { (leaf : ℕ) → leaf ≢ middle_in block → leaf_in self.new.ready leaf ≡ leaf_in self.old.ready leaf }
        ensures list { self.new.list ≡ self.old.list }
    {
        let first = first_of(block);
        let middle = middle_of(block);
        self.starts[middle] = None;
        self.starts[first] = Some(block.0);
        self.sums[middle] = Joined::new(alloc);
        self.sums[first] = sum;
        self.ready.set(middle, None);
    }

    /// Lists the blocks by first tile, in the room that is there.
    pub fn list_blocks(&mut self)
        requires blocks { AreBlocks (blocks_of self.old.starts.items) }
        requires room { vec_len self.old.starts ≤ vec_capacity self.old.list }
        ensures list { self.new.list.items ≡ blocks_of self.old.starts.items }
        ensures room { vec_capacity self.old.list ≤ vec_capacity self.new.list }
        ensures starts { self.new.starts ≡ self.old.starts }
        ensures sums { self.new.sums ≡ self.old.sums }
        ensures ready { self.new.ready ≡ self.old.ready }
    {
        self.list.clear();
        for tile in 0..self.starts.len() {
            if let Some(k) = self.starts[tile] {
                if self.list.push((k, (tile >> k) as u32)).is_err() {
                    unreachable!();
                }
            }
        }
    }

    /// The summaries of the blocks, by first tile, in the table's own room.
    pub fn into_sums(self) -> Vec<Joined>
        requires aligned { AreAligned self.starts.items }
        requires sums { vec_len self.sums ≡ vec_len self.starts }
        ensures { result.items ≡ sums_at self.sums.items (blocks_of self.starts.items) }
    {
        let mut sums = self.sums;
        let mut count = 0;
        for tile in 0..self.starts.len() {
            if self.starts[tile].is_some() {
                sums.swap(count, tile);
                count += 1;
            }
        }
        sums.truncate(count);
        sums
    }
}
