//! The program, but for its `main`: the words of the command line, the files, and what is written and said.
#![tactic(auto)]

mod batch;
mod check;
mod demo;
mod edit;
mod input;
mod output;
mod program;
mod refusals;
mod split;
mod status;

pub use dpl_answer::EdgeJob;
pub use dpl_texts::USAGE;
pub use program::run;
pub use status::Status;
