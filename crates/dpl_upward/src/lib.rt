//! The canonical slabs of the squares that rectangles have and no hole has, swept from the lowest row up.
#![tactic(auto)]

mod active;
mod upward;

pub use upward::{slabs_upward, slabs_upward_without};
