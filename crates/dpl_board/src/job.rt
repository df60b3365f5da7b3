//! What a board is filled with: a number of tiles, and the edges of each.
ghost use Rattle.std.specs.Prelude.{◌≡◌, ◌<◌, length, IfOk};
ghost use Rattle.dpl_stars.specs.Sums.{Sums};
ghost use Rattle.dpl_board.specs.Sheets.{Sheet, IsSheet, edges_at};

use dpl_stars::Joined;
use std::alloc::{AllocError, Global};

/// A number of tiles, each with a list of edges, whose summaries can be worked out one by one. The lists together are the
/// job's sheet.
pub trait Job {
    ghost sheet: { Self → Sheet };

    /// How many tiles there are.
    fn tiles(&self) -> u32
        ensures count { result ≡ length (sheet self.now) }
        ensures edges { IsSheet (sheet self.now) };

    /// The summary of the edges of a tile.
    fn summary(&self, alloc: Global, tile: u32) -> Result<Joined, AllocError>
        requires { tile < length (sheet self.now) }
        ensures { IfOk result (λ joined. Sums (edges_at (sheet self.now) tile) joined) };
}
