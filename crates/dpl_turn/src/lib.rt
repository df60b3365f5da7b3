//! A board of a job that threads share: a turn word, a tile word, and one slot for its state.
#![tactic(auto)]

mod board;
mod ready;
mod seat;
mod view;

pub use board::Board;
pub use seat::Seat;
