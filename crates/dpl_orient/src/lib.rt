//! The colours of pieces: which of the two masks each of them goes to.
#![tactic(auto)]

mod chart;
mod colouring;
mod components;
mod crossing;
mod flipping;
mod links;
mod mask;
mod queue;
mod reducing;
mod tallies;

pub use crate::colouring::{are_sides_below, is_even_below, orient};
pub use crate::components::roots_below;
pub use crate::mask::{Colours, Mask, is_second};
pub use crate::reducing::{colours_by, fewer};
