//! A pool of workers that take tiles of jobs from one deal and post their summaries on the jobs' boards.
#![tactic(auto)]

mod gate;
mod member;
mod numbers;
mod pool;
mod seats;
mod single;

pub use dpl_deal::{Deal, Hand};
pub use gate::{Gate, OpenGate};
pub use pool::{run_many, run_pool};
