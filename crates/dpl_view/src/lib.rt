//! What a layout holds for double patterning: all odd cycles of its conflicts, the stitches of its split, or its layers and their elements.
#![tactic(auto)]

mod clashes;
mod conflicting;
mod contents;
mod counts;
mod finding;
mod layers;
mod status;
mod stitches;
mod tally;
mod tangles;
mod units;

pub use clashes::{Tangles, clashes_of};
pub use contents::{Contents, Look, Placed, Top, look_into};
pub use counts::{Counts, LayerCounts};
pub use finding::{Cycles, Finding, Order, find};
pub use status::{Status, status_by};
pub use stitches::{Seams, Split, find_stitches, status_by_split};
pub use units::{top_name, unit_of};
