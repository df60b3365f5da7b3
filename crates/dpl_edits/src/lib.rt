//! Edits of a layer: the text that lists them, and what they make of the layer's squares.
#![tactic(auto)]

mod applying;
mod reading;

pub use applying::edited;
pub use dpl_spec_edits::Edit;
pub use reading::{EditsFault, MOST_EDITS, read_edits};
