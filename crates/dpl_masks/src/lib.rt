//! The two masks of a decomposed layer, and the file that holds them.
#![tactic(auto)]

mod bytes;
mod ink;
mod painting;
mod pair;
mod rest;
mod united;

pub use bytes::{file_bytes, put_boundary};
pub use painting::{masks, masks_by, stitches};
pub use pair::Masks;
