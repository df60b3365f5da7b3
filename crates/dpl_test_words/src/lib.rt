//! Words of a command line, and what they ask for.
#![tactic(auto)]

#[cfg(test)]
mod cases;
#[cfg(test)]
mod told;
#[cfg(test)]
mod words;
