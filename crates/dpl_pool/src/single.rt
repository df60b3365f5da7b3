//! A job alone, as one of a list of jobs.
use dpl_board::Job;
use dpl_stars::Joined;
use std::alloc::{AllocError, Global};

/// A job that is borrowed.
#[derive(Drop)]
pub struct Single<'a, J: Job> {
    pub job: &'a J,
}

impl<'a, J: Job> Job for Single<'a, J> {
    ghost sheet = { λ single. J.sheet single.job.now };

    fn tiles(&self) -> u32 {
        self.job.tiles()
    }

    fn summary(&self, alloc: Global, tile: u32) -> Result<Joined, AllocError> {
        self.job.summary(alloc, tile)
    }
}
