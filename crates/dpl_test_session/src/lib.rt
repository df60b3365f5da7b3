//! Edits of a layer, read and made, and sessions whose answers are kept up to date.
#![tactic(auto)]

#[cfg(test)]
mod edits;
#[cfg(test)]
mod session;
