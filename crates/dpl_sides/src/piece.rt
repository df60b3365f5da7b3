//! Pieces with their features.
use dpl_base::Id;
use dpl_slabs::Slabs;

/// What a piece is: a whole feature, or one of the pieces into which zones broke a feature.
#[derive(Clone, Copy, Drop)]
pub enum Origin {
    Whole,
    Broken,
}

/// A piece, the number of the feature that it lies in, and its place before pieces are sorted, once it is known.
#[derive(Drop)]
pub struct Piece {
    pub part: Slabs,
    pub owner: Id,
    pub origin: Origin,
    pub number: u32,
}
