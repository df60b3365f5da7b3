//! Masks and conflicts that are checked, and the first of the files that is refused, from file to file.
#![tactic(auto)]

#[cfg(test)]
mod certificates;
#[cfg(test)]
mod files;
#[cfg(test)]
mod verdicts;
