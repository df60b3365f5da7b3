//! The board on which the summaries of tiles are joined, and the events that lead to its state.
#![tactic(auto)]

mod blocks;
mod board;
mod entry;
mod events;
mod fault;
mod job;
mod kept;
mod posts;
mod tournament;

pub use crate::blocks::Blocks;
pub use crate::board::{BoardState, all_posted_law};
pub use crate::entry::Entry;
pub use crate::events::{Core, Event, replay};
pub use crate::fault::PostFault;
pub use crate::job::Job;
