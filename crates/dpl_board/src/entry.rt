//! What a board's history is a list of.

/// One post: a worker, and the tile that it posted.
#[derive(Clone, Copy, Debug, Drop, PartialEq, Eq)]
pub struct Entry {
    pub worker: u32,
    pub tile: u32,
}
