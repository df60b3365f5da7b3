//! A board that keeps a summary for each block of posted tiles, so that blocks can be merged elsewhere and folded in.
ghost use Rattle.std.specs.Prelude.{◌≡◌, ◌∷◌, [], ◌<◌, ℕ, map, IfOk, OnOk, MatchBool, MatchOption};
ghost use Rattle.std.specs.Borrow.{sem};
ghost use Rattle.std.specs.Io.BufRead.{Rests};
ghost use Rattle.dpl_board.specs.contracts.blocks.Blocks.{the_row};
ghost use Rattle.dpl_board.specs.Sheets.{entry, poster_in};
ghost use Rattle.dpl_board.specs.Boards.{AreAllPosted, ArePosts, IsFirstMissing, IsFresh, PostLeaves};
ghost use Rattle.dpl_board.specs.Blocks.{AreApart, ArePostedTiles, HasAdded, IsFold, IsLeastReady, IsReady, IsWhole, KeepsHalves, tiles_at};

use crate::board::BoardState;
use crate::entry::Entry;
use crate::fault::PostFault;
use crate::kept::{Kept, first_of, middle_of};
use crate::posts::Posts;
use dpl_stars::{Joined, merge_all};
use std::alloc::{AllocError, Global};
use std::marker::Model;

/// The tiles that were posted, by whom and in which order, and a summary for each of the blocks that they make up. Block
/// (k, i) is the tiles from i * 2^k to (i + 1) * 2^k - 1; its halves are the blocks (k - 1, 2i) and (k - 1, 2i + 1).
#[derive(Drop)]
pub struct Blocks {
    alloc: Global,
    posts: Posts,
    kept: Kept,
}

impl Model for Blocks {
    ghost use Rattle.std.specs.Prelude.{map};
    ghost use Rattle.dpl_board.specs.Boards.{Board, board};
    ghost use Rattle.dpl_board.specs.Starts.{blocks_of};
    ghost use Rattle.dpl_board.specs.Blocks.{AreKept, sums_at, tiles_at};

    ghost Value = { Board };

    ghost view = { λ b. board b.posts.tiles b.posts.history.items (map tiles_at (blocks_of b.kept.starts.items)) (sums_at b.kept.sums.items (blocks_of b.kept.starts.items)) };

    ghost invariant = { λ b. AreKept b.posts b.kept };
}

impl Blocks {
    /// A board on which none of so many tiles is posted.
    pub fn new(alloc: Global, tiles: u32) -> Result<Blocks, AllocError>
        ensures fresh { IfOk result (λ b. IsFresh tiles b) }
        ensures none { IfOk result (λ b. b.parts ≡ []) }
    {
        Ok(Blocks {
            alloc,
            posts: Posts::new(alloc, tiles)?,
            kept: Kept::new(alloc, tiles)?,
        })
    }

    /// Posts the summary of a tile's edges, which is a block by itself. `Twice` exactly where the tile is posted, with
    /// the worker that posted it, and tried before `NoMemory`; a post that isn't made changes nothing.
    pub fn post(&mut self, worker: u32, tile: u32, sum: Joined) -> Result<(), PostFault>
        requires { tile < self.old.tiles }
        ensures post { PostLeaves self.old (entry worker tile) sum result self.new }
        ensures adds { OnOk result (HasAdded self.old (tiles_at (0, tile)) sum self.new) }
    {
        if let Some(by) = self.posts.poster(tile) {
            return Err(PostFault::Twice { by });
        }
        self.posts.add(Entry { worker, tile })?;
        self.kept.keep(tile, sum);
        self.kept.note(tile as usize);
        Ok(())
    }

    /// The worker that posted a tile; none where it isn't posted, or the board has no such tile.
    pub fn poster(&self, tile: u32) -> Option<u32>
        ensures { result ≡ poster_in tile self.now.history }
    {
        self.posts.poster(tile)
    }

    /// The least tile that isn't posted.
    pub fn first_missing(&self) -> Option<u32>
        ensures { MatchOption result (AreAllPosted self.now) (λ t. IsFirstMissing self.now.tiles self.now.history t) }
    {
        self.posts.first_missing()
    }

    /// The posts in their order.
    pub fn history(&self) -> &[Entry]
        ensures value { result.now ≡ self.now.history }
        ensures posts { ArePosts self.now.tiles self.now.history }
    {
        self.posts.history.as_slice()
    }

    /// The blocks that have a summary, by first tile. Each posted tile is in one of them, and no other tile is.
    pub fn kept(&mut self) -> &[(u32, u32)]
        ensures* same { sem 𝓛 (Rests the_row self.entry (λ new. new ≡ self.old)) }
        ensures parts { map tiles_at result.now ≡ self.old.parts }
        ensures apart { AreApart result.now }
        ensures tiles { ArePostedTiles self.old.parts self.old.history }
    {
        self.kept.list_blocks();
        self.kept.list.as_slice()
    }

    /// Of the blocks whose halves both have a summary that of least k, then least i.
    pub fn ready(&self) -> Option<(u32, u32)>
        ensures { MatchOption result ((block : ℕ × ℕ) → IsReady self.now block → ⊥) (λ block. IsLeastReady self.now block) }
    {
        self.kept.ready.least()
    }

    /// Copies of the summaries of a block's halves.
    pub fn halves(&self, k: u32, i: u32) -> Result<(Joined, Joined), AllocError>
        requires { IsReady self.now (k, i) }
        ensures { IfOk result (λ sums. KeepsHalves self.now (k, i) sums) }
    {
        let left = self.kept.sums[first_of((k, i))].copy(self.alloc)?;
        let right = self.kept.sums[middle_of((k, i))].copy(self.alloc)?;
        Ok((left, right))
    }

    /// Puts a block in place of its halves, with the summary of its edges. The answer is false, and nothing changes,
    /// exactly where not both halves have a summary.
    pub fn fold(&mut self, k: u32, i: u32, sum: Joined) -> bool
        ensures { MatchBool result (IsReady self.old (k, i) × IsFold self.old (k, i) sum self.new) ((IsReady self.old (k, i) → ⊥) × (self.new ≡ self.old)) }
    {
        if !self.kept.is_ready((k, i)) {
            return false;
        }
        self.kept.fold(self.alloc, (k, i), sum);
        self.kept.note(first_of((k, i)));
        true
    }

    /// The board with one summary, that of the edges of all posted tiles.
    pub fn finish(self) -> Result<BoardState, AllocError>
        ensures { IfOk result (λ b. IsWhole self b) }
    {
        let sums = self.kept.into_sums();
        let joined = merge_all(self.alloc, &sums)?;
        Ok(BoardState {
            alloc: self.alloc,
            posts: self.posts,
            joined,
        })
    }
}
