//! The command line of the program, read with `clap`.
#![tactic(auto)]

mod definition;
mod law;
mod values;

pub use law::{taken_has_its_values, taken_names_a_subcommand};
pub use values::{
    BatchOptions, CheckOptions, DemoOptions, EditOptions, Request, SplitOptions, WordsFault,
    certificate_name, mask_name, read_words,
};
