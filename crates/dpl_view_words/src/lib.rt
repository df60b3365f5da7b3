//! The words of `dplview`, and what they ask for.
#![tactic(auto)]

mod words;

pub use words::{FileOptions, Request, SplitOptions, read_words};
