//! Worked layers, from their squares to their pieces and conflicts.
#![tactic(auto)]

mod bars;
#[cfg(test)]
mod conflicts;
#[cfg(test)]
mod corners;
#[cfg(test)]
mod marks;
#[cfg(test)]
mod masks;
#[cfg(test)]
mod near;
#[cfg(test)]
mod sets;
#[cfg(test)]
mod tall;
#[cfg(test)]
mod tiles;
#[cfg(test)]
mod zones;

pub use bars::{BARS, Corners, RING, SPACING, rects_of, set_of};
