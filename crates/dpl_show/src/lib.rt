//! The lines, JSON and markers in which `dplview` shows what was found.
#![tactic(auto)]

mod contents;
mod cycles;
mod json;
mod markers;
mod seams;

pub use contents::{content_json, content_lines};
pub use cycles::{conflict_json, conflict_lines, refused_line};
pub use json::refused_json;
pub use markers::{cycle_markers, stitch_markers};
pub use seams::{conflict_line, no_masks_json, stitch_json, stitch_lines};
