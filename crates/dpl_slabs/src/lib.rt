//! Sets of squares, kept as canonical slabs.
#![tactic(auto)]

mod ahead;
mod blocks;
mod combine;
mod gaps;
mod joint;
mod loops;
mod made;
mod parts;
mod rects;
mod row;
mod slabs;
mod slices;
mod strips;
mod swept;

pub use parts::Parts;
pub use slabs::Slabs;
