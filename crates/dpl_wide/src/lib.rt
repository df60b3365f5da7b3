//! Stages of a layer shared among workers. What they give is what one gives.
#![tactic(auto)]

mod alone;
mod dealt;
mod features;
mod touching;
mod whole;

pub use features::features_by;
pub use whole::cut_by;
