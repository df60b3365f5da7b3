//! Sample layouts for tests, record by record, and so also such as no tool writes.
#![tactic(auto)]

mod files;
mod layouts;
mod line;

pub use files::{host, is_text};
pub use layouts::{Part, Rectangle, bars, finish, layout, library, masks, put_parts};
pub use line::words;
