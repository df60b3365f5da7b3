//! From file to file: files with a fault, calls of the outside that fail and words that are no command; workers that
//! share the tiles of a layout.
#![tactic(auto)]

#[cfg(test)]
mod bytes;
#[cfg(test)]
mod calls;
#[cfg(test)]
mod lines;
#[cfg(test)]
mod records;
#[cfg(test)]
mod workers;
