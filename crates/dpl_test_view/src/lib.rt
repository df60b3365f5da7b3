//! What `dplview` says and writes of worked layouts.
#![tactic(auto)]

#[cfg(test)]
mod layers;
#[cfg(test)]
mod said;
#[cfg(test)]
mod splits;
