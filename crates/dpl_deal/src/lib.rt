//! Tiles that are dealt to the deques of workers, which take them and steal from one another.
#![tactic(auto)]

mod closing;
mod deal;
mod dealing;
mod grip;
mod hand;
mod view;

pub use deal::Deal;
pub use hand::Hand;
