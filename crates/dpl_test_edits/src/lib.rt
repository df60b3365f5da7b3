//! Edited splits and batches, from file to file.
#![tactic(auto)]

#[cfg(test)]
mod batch;
#[cfg(test)]
mod edits;
