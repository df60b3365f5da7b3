//! Pieces of features: which of them stand on the two sides of a zone, and where those are once the pieces are sorted.
#![tactic(auto)]

mod arrange;
mod corner;
mod noted;
mod piece;
mod rank;
mod sided;
mod sorted;
mod standing;

pub use noted::{Noted, note_moved, note_sides, sides_of};
pub use piece::{Origin, Piece};
pub use sided::{Sided, with_sides};
pub use sorted::sort_with_sides;
pub use standing::Side;
