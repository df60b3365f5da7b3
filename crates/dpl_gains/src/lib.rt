//! The gains of the components of a layer's pieces: of the zones between each component and others, how many have pieces of two letters on their sides, and how many have pieces of one.
#![tactic(auto)]

mod gains;
mod held;
mod roots;
mod tallies;

pub use crate::gains::{gains_by_roots, gains_of};
