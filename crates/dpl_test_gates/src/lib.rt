//! Gates that hold the workers of a pool, and tell whom they saw.
#![tactic(auto)]

mod counts;
mod holds;

pub use counts::{Counts, Crowd};
pub use holds::{Assembly, Holds};
