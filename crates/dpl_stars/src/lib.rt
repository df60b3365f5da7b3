//! Graphs on numbers: components, levels and odd cycles; summaries of edge lists, and the summary of two of them together.
#![tactic(auto)]

mod chains;
mod joined;
mod levels;
mod links;
mod list;
mod places;
mod reached;
mod rows;
mod sums;
mod table;
mod touched;

pub use crate::joined::Joined;
pub use crate::levels::{Levels, are_edges_below, levels_of, odd_cycle_laws};
pub use crate::list::{Star, StarList};
pub use crate::sums::{merge, merge_all, one_summary, stars};
