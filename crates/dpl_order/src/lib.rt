//! Rectangles in order, and pieces that stand on one another put together: canonical slabs.
#![tactic(auto)]

mod join;
mod order;

pub use join::{continues, join_pieces, slabs_of};
pub use order::{sort_by_corner, sort_slice_by_corner};
