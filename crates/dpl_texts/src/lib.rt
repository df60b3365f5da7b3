//! The lines that the program says.
#![tactic(auto)]

mod texts;

pub use texts::{
    NamedFile, USAGE, bad_line_line, conflict_line, demo_line, done_line, layer_line,
    refused_file_line, refused_line, usage_line, verdict_line,
};
