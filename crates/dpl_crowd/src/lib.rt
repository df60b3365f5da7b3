//! Whether a layer is dense or crowded, and the reported odd cycle of pieces that have so many conflicts that these aren't listed.
#![tactic(auto)]

mod cycle;
mod dense;
mod least;
mod levels;
mod near;

pub use crate::dense::{are_many, slab_count};
pub use crate::near::Crowd;
