//! One numbering of the tiles of all jobs: those of each job follow those of the jobs before it.
ghost use Rattle.std.specs.Prelude.{◌≡◌, ◌<◌, ◌^◌, IfOk, List, map};
ghost use Rattle.dpl_board.specs.Sheets.{Sheet};
ghost use Rattle.dpl_pool.specs.Numbering.{IsNumbered, IsPlace, tile_count};

use dpl_board::Job;
use std::alloc::{AllocError, Global};

/// The number of each job's first tile, and how many tiles all jobs have.
#[derive(Drop)]
pub struct Numbers {
    pub firsts: Vec<u32>,
    pub tiles: u32,
}

impl Numbers {
    /// Numbers the tiles of the jobs.
    pub(crate) fn of<J: Job>(alloc: Global, jobs: &[J]) -> Result<Numbers, AllocError>
        requires { tile_count (map J.sheet jobs.now) < 2 ^ 32 }
        ensures { IfOk result (λ n. IsNumbered (map J.sheet jobs.now) n) }
    {
        let mut firsts = Vec::new(alloc);
        let mut tiles = 0;
        for job in jobs {
            firsts.push(tiles)?;
            tiles += job.tiles();
        }
        Ok(Numbers { firsts, tiles })
    }

    /// The job that has the tile of this number, and the tile's number within that job.
    pub(crate) fn place(&self, number: u32) -> (usize, u32)
        requires numbered { (sheets : List Sheet) × IsNumbered sheets self.now }
        requires below { number < self.now.tiles }
        ensures { (sheets : List Sheet) → IsNumbered sheets self.now → IsPlace sheets number result.0 result.1 }
    {
        let job = self.firsts.partition_point(|first| *first <= number) - 1;
        (job, number - self.firsts[job])
    }
}
