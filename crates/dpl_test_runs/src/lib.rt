//! Runs of the program over files in memory, and what they leave.
#![tactic(auto)]

mod cases;
mod checks;
mod hosts;
mod splits;

pub use cases::{Case, Content, Left, Run, all_hold, holds_where};
pub use checks::{CHECK, ONE_BAR, says, text};
pub use hosts::{host_of_layer, host_with};
pub use splits::{AS_ONE, BAR, Done, EMPTY, SPLIT, answer, is_conflict, is_done, is_refused, said};
