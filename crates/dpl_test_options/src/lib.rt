//! Splits with options that rule decks ask for, and checks of what they leave, from file to file.
#![tactic(auto)]

#[cfg(test)]
mod corners;
#[cfg(test)]
mod fewer;
#[cfg(test)]
mod marks;
