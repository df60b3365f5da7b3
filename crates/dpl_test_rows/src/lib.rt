//! Worked layouts, from file to file: how the whole program splits them.
#![tactic(auto)]

#[cfg(test)]
mod calls;
#[cfg(test)]
mod cases;
#[cfg(test)]
mod demos;
#[cfg(test)]
mod large;
#[cfg(test)]
mod layers;
#[cfg(test)]
mod rectangles;
#[cfg(test)]
mod tiles;
