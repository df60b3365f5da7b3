//! Which rectangles of different owners lie close to one another, found strip by strip of rows.
#![tactic(auto)]

mod bands;
mod close;
mod items;
mod join;
mod laws;
mod ruling;
mod strips;
mod sweep;

pub use crate::close::is_close;
pub use crate::items::{Item, Pair};
pub use crate::join::Join;
pub use crate::laws::near_are_close;
