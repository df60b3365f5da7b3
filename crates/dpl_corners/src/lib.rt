//! Loops of points, and bars, the loops of which are rectangles.
#![tactic(auto)]

mod bar;
mod corners;
mod figure;

pub use crate::bar::Bar;
pub use crate::corners::spanned;
pub use crate::figure::{Figure, Shape};
