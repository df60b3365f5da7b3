//! Graphs of numbered vertices: what a vertex reaches, and which edges lie on cycles.
#![tactic(auto)]

mod levels;
mod order;
mod reached;
mod sources;

pub use crate::levels::find_levels;
pub use crate::order::{Order, find_order};
pub use crate::reached::reach;
pub use crate::sources::find_sources;
