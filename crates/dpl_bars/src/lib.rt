//! Bars that stand apart from rectangles, and bars that touch some.
#![tactic(auto)]

mod alone;

pub use alone::{add_touching, alone_of};
