//! The state of a board: what was posted, and the summary of what was posted.
ghost use Rattle.std.specs.Prelude.{◌≡◌, ◌<◌, IfOk, MatchOption};
ghost use Rattle.dpl_board.specs.Sheets.{entry, poster_in};
ghost use Rattle.dpl_board.specs.Boards.{AllPostedSumUp, AreAllPosted, ArePosts, IsFirstMissing, IsFresh, PostLeaves, SumsPosted};

use crate::entry::Entry;
use crate::fault::PostFault;
use crate::posts::Posts;
use dpl_stars::{Joined, merge};
use std::alloc::{AllocError, Global};
use std::marker::Model;

/// The tiles that were posted, by whom and in which order, and the summary of their edges.
#[derive(Drop)]
pub struct BoardState {
    pub(crate) alloc: Global,
    pub(crate) posts: Posts,
    pub(crate) joined: Joined,
}

impl Model for BoardState {
    ghost use Rattle.std.specs.Prelude.{[], ◌∷◌};
    ghost use Rattle.dpl_board.specs.Boards.{Board, HasPosters, board};
    ghost use Rattle.dpl_board.specs.Summing.{tiles_of};

    ghost Value = { Board };

    ghost view = { λ b. board b.posts.tiles b.posts.history.items (tiles_of b.posts.history.items ∷ []) (b.joined ∷ []) };

    ghost invariant = { λ b. HasPosters b.posts };
}

impl BoardState {
    /// A board on which none of so many tiles is posted.
    pub fn new(alloc: Global, tiles: u32) -> Result<BoardState, AllocError>
        ensures { IfOk result (λ b. IsFresh tiles b) }
    {
        Ok(BoardState {
            alloc,
            posts: Posts::new(alloc, tiles)?,
            joined: Joined::new(alloc),
        })
    }

    /// Posts the summary of a tile's edges. `Twice` exactly where the tile is posted, with the worker that posted it,
    /// and tried before `NoMemory`; a post that isn't made changes nothing.
    pub fn post(&mut self, worker: u32, tile: u32, sum: Joined) -> Result<(), PostFault>
        requires { tile < self.old.tiles }
        ensures { PostLeaves self.old (entry worker tile) sum result self.new }
    {
        if let Some(by) = self.posts.poster(tile) {
            return Err(PostFault::Twice { by });
        }
        let joined = merge(self.alloc, &self.joined, &sum)?;
        self.posts.add(Entry { worker, tile })?;
        self.joined = joined;
        Ok(())
    }

    /// The worker that posted a tile; none where it isn't posted, or the board has no such tile.
    pub fn poster(&self, tile: u32) -> Option<u32>
        ensures { result ≡ poster_in tile self.now.history }
    {
        self.posts.poster(tile)
    }

    /// The least tile that isn't posted.
    pub fn first_missing(&self) -> Option<u32>
        ensures { MatchOption result (AreAllPosted self.now) (λ t. IsFirstMissing self.now.tiles self.now.history t) }
    {
        self.posts.first_missing()
    }

    /// The posts in their order.
    pub fn history(&self) -> &[Entry]
        ensures value { result.now ≡ self.now.history }
        ensures posts { ArePosts self.now.tiles self.now.history }
    {
        self.posts.history.as_slice()
    }

    /// The summary of the edges of all posted tiles together.
    pub fn joined(&self) -> &Joined
        ensures { SumsPosted self.now result.now }
    {
        &self.joined
    }
}

/// Where all tiles are posted, the summary of the posted tiles is that of the edges of all tiles together.
pub fn all_posted_law()
    ensures { AllPostedSumUp }
{}
