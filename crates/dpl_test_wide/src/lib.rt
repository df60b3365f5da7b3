//! What workers make and find: slabs of strips and blocks, near slabs, zones, pieces and features.
#![tactic(auto)]

#[cfg(test)]
mod features;
#[cfg(test)]
mod many;
#[cfg(test)]
mod pieces;
#[cfg(test)]
mod shared;
