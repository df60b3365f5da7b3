//! Blocks that are merged outside the turn, and which blocks these are.
ghost use Rattle.std.specs.Prelude.{◌≡◌, IfOk, IfSome};
ghost use Rattle.dpl_stars.specs.Sums.{Sums, SumsBoth};
ghost use Rattle.dpl_board.specs.Sheets.{Sheet};
ghost use Rattle.dpl_board.specs.Summing.{edges_in};
ghost use Rattle.dpl_board.specs.Boards.{Stands};
ghost use Rattle.dpl_board.specs.Blocks.{KeepsHalves, tiles_at};

use dpl_board::Blocks;
use dpl_stars::{Joined, merge};
use std::alloc::{AllocError, Global};

/// A post merges a block of no more than 2^k tiles, with this k. Each doubling of blocks looks at every row once more, and
/// what is left is put together in one pass when the board is closed, so further doublings take more time than they spare.
const MERGED_SIZE: u32 = 1;

/// A post of a tile whose summary has fewer rows than these merges nothing: a second turn takes more time than so small a
/// merge spares, and others wait for it.
const MERGED_ROWS: usize = 256;

/// A block that is ready, and copies of the summaries of its halves.
#[derive(Drop)]
pub(crate) struct Ready {
    pub block: (u32, u32),
    pub halves: (Joined, Joined),
}

impl Ready {
    /// The summary of the block's edges.
    pub fn merged(&self, alloc: Global) -> Result<Joined, AllocError>
        ensures { IfOk result (λ sum. SumsBoth self.now.halves.0 self.now.halves.1 sum) }
    {
        merge(alloc, &self.halves.0, &self.halves.1)
    }
}

/// How many rows a summary has.
fn row_count(sum: &Joined) -> usize {
    match sum {
        Joined::Stars(rows) => rows.items().len(),
        Joined::Odd => 0,
    }
}

/// The block that is ready and to be merged before a tile with this summary is posted. There is none where the tile is
/// posted or its summary is small, where only larger blocks are ready, or where there is no memory for the copies.
pub(crate) fn find_ready(state: &Blocks, tile: u32, sum: &Joined) -> Option<Ready>
    ensures { IfSome result (λ r. KeepsHalves state.now r.block r.halves) }
{
    if row_count(sum) < MERGED_ROWS || state.poster(tile).is_some() {
        return None;
    }
    let block = state.ready()?;
    if block.0 > MERGED_SIZE {
        return None;
    }
    match state.halves(block.0, block.1) {
        Ok(halves) => Some(Ready { block, halves }),
        Err(_) => None,
    }
}

/// The state with the block folded in, if its summary could be made.
pub(crate) fn folded(state: Blocks, block: (u32, u32), sum: Result<Joined, AllocError>) -> Blocks
    ensures history { result.history ≡ state.history }
    ensures stands { (sheet : Sheet) → Stands sheet state → IfOk sum (λ j. Sums (edges_in sheet (tiles_at block)) j) → Stands sheet result }
{
    let mut state = state;
    if let Ok(sum) = sum {
        state.fold(block.0, block.1, sum);
    }
    state
}
