//! A layer that is edited, with its answer kept up to date: after an edit every window is compared, but conflicts are looked for only in tiles whose surroundings the edit changed.
#![tactic(auto)]

mod cells;
mod clip;
mod edges;
mod index;
mod kept;
mod session;
mod steps;
mod tile;
mod verdict;
mod window;

pub use session::{Answer, Session, edits_one_after_another};
pub use steps::Steps;
