//! Worked layouts, from file to file: how the whole program reads shapes and references, and for what it refuses them.
#![tactic(auto)]

#[cfg(test)]
mod cases;
#[cfg(test)]
mod hierarchy;
#[cfg(test)]
mod layouts;
#[cfg(test)]
mod shapes;
