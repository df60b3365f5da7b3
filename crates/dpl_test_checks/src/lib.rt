//! Certificates: their texts, both ways, and checks of what they say where marks are asked for.
#![tactic(auto)]

#[cfg(test)]
mod cases;
#[cfg(test)]
mod cycles;
#[cfg(test)]
mod masks;
#[cfg(test)]
mod sets;
#[cfg(test)]
mod texts;
