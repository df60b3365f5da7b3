//! Numbers of pieces, features and zones, and lists of them and of others.
#![tactic(auto)]

mod listed;
mod numbers;
mod room;

pub use crate::listed::Listed;
pub use crate::numbers::{numbers_below, short_id};
pub use crate::room::give_back;

/// The number of a piece, a feature or a zone.
pub type Id = u64;

/// Two different numbers, the smaller first.
pub type Edge = (Id, Id);
