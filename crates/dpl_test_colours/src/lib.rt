//! Worked graphs, from their edges to the colours of their numbers, and the board and the workers that join them.
#![tactic(auto)]

#[cfg(test)]
mod assemblies;
#[cfg(test)]
mod blocks;
#[cfg(test)]
mod boards;
#[cfg(test)]
mod colours;
#[cfg(test)]
mod components;
#[cfg(test)]
mod cycles;
#[cfg(test)]
mod hands;
#[cfg(test)]
mod jobs;
#[cfg(test)]
mod levels;
#[cfg(test)]
mod many;
#[cfg(test)]
mod pools;
#[cfg(test)]
mod seats;
#[cfg(test)]
mod summaries;
