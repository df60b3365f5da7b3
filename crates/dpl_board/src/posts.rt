//! Which tiles were posted, by whom and in which order.
ghost use Rattle.std.specs.Prelude.{◌≡◌, ◌<◌, ℕ, [], ◌∷◌, ◌++◌, None, IfOk, OnOk, OnErr, MatchOption};
ghost use Rattle.dpl_board.specs.Sheets.{IsPosted, poster_in};
ghost use Rattle.dpl_board.specs.Boards.{HasPosters, IsFirstMissing};
ghost use Rattle.dpl_board.specs.declared.entry.Entry.{Entry};

use crate::entry::Entry;
use std::alloc::{AllocError, Global};

/// The posts on a board.
#[derive(Drop)]
pub(crate) struct Posts {
    pub tiles: u32,
    /// For each tile the worker that posted it.
    pub posters: Vec<Option<u32>>,
    pub history: Vec<Entry>,
}

impl Posts {
    /// No posts, of so many tiles.
    pub fn new(alloc: Global, tiles: u32) -> Result<Posts, AllocError>
        ensures { IfOk result (λ p. (p.tiles ≡ tiles) × (p.history.items ≡ []) × HasPosters p) }
    {
        Ok(Posts {
            tiles,
            posters: vec![in alloc; None; tiles as usize]?,
            history: Vec::new(alloc),
        })
    }

    /// The worker that posted a tile.
    pub fn poster(&self, tile: u32) -> Option<u32>
        requires { HasPosters self.now }
        ensures { result ≡ poster_in tile self.now.history.items }
    {
        if tile < self.tiles {
            self.posters[tile as usize]
        } else {
            None
        }
    }

    /// The least tile that isn't posted.
    pub fn first_missing(&self) -> Option<u32>
        requires { HasPosters self.now }
        ensures { MatchOption result ((t : ℕ) → t < self.now.tiles → IsPosted t self.now.history.items) (λ t. IsFirstMissing self.now.tiles self.now.history.items t) }
    {
        for tile in 0..self.tiles {
            if self.posters[tile as usize].is_none() {
                return Some(tile);
            }
        }
        None
    }

    /// Adds the post of a tile that isn't posted.
    pub fn add(&mut self, entry: Entry) -> Result<(), AllocError>
        requires posters { HasPosters self.old }
        requires below { entry.tile < self.old.tiles }
        requires missing { poster_in entry.tile self.old.history.items ≡ None }
        ensures posters { HasPosters self.new }
        ensures tiles { self.new.tiles ≡ self.old.tiles }
        ensures history { OnOk result (self.new.history.items ≡ self.old.history.items ++ entry ∷ []) }
        ensures same { OnErr result (self.new.history.items ≡ self.old.history.items) }
    {
        self.history.push(entry)?;
        self.posters[entry.tile as usize] = Some(entry.worker);
        Ok(())
    }
}
