//! Checks masks and conflicts by the layer alone, whatever tool made them.
#![tactic(auto)]

mod anchors;
mod conflict;
mod counts;
mod cover;
mod gains;
mod letters;
mod marks;
mod masks;
mod place;
mod spacing;
mod stitch;
mod stood;
mod window;

pub use crate::conflict::check_conflict;
pub use crate::masks::check_masks;
pub use dpl_spec_verdict::Verdict;
