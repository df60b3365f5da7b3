//! Which rows of a slab are near other features, and whether its own feature goes on past its ends: what of it a zone may stand in.
#![tactic(auto)]

mod crowded;
mod dealt;
mod ends;
mod rows;
mod shades;

pub use ends::{Ends, ends_of};
pub use rows::{Span, gaps};
pub use shades::{
    Portion, Shade, Shades, is_short, portion_from, portion_start, rows_at, shades_by, shades_of,
};
