//! The pieces that stitch zones leave of features.
#![tactic(auto)]

mod bar;
mod bare;
mod cut;
mod key;
mod made;
mod matched;
mod own;
mod piece;
mod pile;
mod rest;

pub use bare::BarePieces;
pub use cut::{bare_pieces, bare_pieces_by, pieces};
pub use matched::{Cut, Pieces};
pub use piece::Whole;
