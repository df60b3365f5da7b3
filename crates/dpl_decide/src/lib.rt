//! From the bytes of a file to its decision: the first fault, or the answer to the chosen layer.
#![tactic(auto)]

mod many;
mod marks;
mod pipeline;

pub use many::{LayersOrder, decide_all};
pub use marks::has_markers;
pub use pipeline::{Decision, Order, Recipe, decide, decompose};
