//! Made-up layouts, each from a seed and a number of rows.
#![tactic(auto)]

mod layout;
mod numbers;

pub use layout::demo_bytes;
