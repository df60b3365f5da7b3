//! From a cut layer to its answer: first the conflicts of its pieces, then both masks with the lines of their certificate, or the reported cycle with its near squares.
#![tactic(auto)]

mod answer;
mod colours;
mod conflicts;
mod crowded;
mod cycle;
mod decomposed;
mod gains;
mod job;
mod lines;
mod many;
mod marks;
mod masks_told;
mod near;
mod vertices;

pub use answer::answer_of;
pub use conflicts::{Conflicts, Sharing, conflicts_of};
pub use crowded::{answer_of_cycle, crowded_cycle};
pub use decomposed::{Clash, Decomposed, Painted};
pub use job::EdgeJob;
pub use lines::{head, place_lines};
pub use many::conflicts_of_all;
pub use marks::MarkSets;
pub use near::near_lines;
