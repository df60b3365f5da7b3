//! Answers of worked layers some of whose squares are fixed to a mask.
#![tactic(auto)]

#[cfg(test)]
mod rows;
