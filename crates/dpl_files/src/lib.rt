//! The outside of the program as the system has it: real files and standard output.
#![tactic(auto)]

mod fault;
mod files;
#[cfg(test)]
mod tests;

pub use fault::Fault;
pub use files::FileHost;
