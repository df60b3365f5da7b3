//! What a cut of features is made of.
ghost use Rattle.std.specs.Prelude.{◌≡◌, IfOk};
ghost use Rattle.dpl_sides.specs.Pieces.{parts_in};
ghost use Rattle.dpl_piece.specs.Pieces.{owners_in};

use dpl_base::{Id, give_back};
use dpl_sides::Piece;
use dpl_slabs::Slabs;
use std::alloc::{AllocError, Global};

/// A feature that zones cut, as it was before, and its number.
#[derive(Drop)]
pub struct Whole {
    pub feature: Id,
    pub set: Slabs,
}

/// Pieces, the features that were cut, and the pieces on the two sides of each zone.
#[derive(Drop)]
pub struct CutUp {
    pub pieces: Vec<Piece>,
    pub wholes: Vec<Whole>,
    pub sides: Vec<(u32, u32)>,
}

/// The squares and the features of pieces, a list of each.
#[derive(Drop)]
pub struct Lists {
    pub parts: Vec<Slabs>,
    pub owners: Vec<Id>,
}

/// The squares and the features of the pieces. The pieces are reversed and taken from the end, so that the room of their list is given back on the way.
pub fn lists_of(alloc: Global, mut pieces: Vec<Piece>) -> Result<Lists, AllocError>
    ensures parts { IfOk result (λ l. l.parts.items ≡ parts_in pieces.items) }
    ensures owners { IfOk result (λ l. l.owners.items ≡ owners_in pieces.items) }
{
    let count = pieces.len();
    let mut parts = Vec::with_capacity(alloc, count)?;
    let mut owners = Vec::with_capacity(alloc, count)?;
    pieces.reverse();
    while let Some(piece) = pieces.pop() {
        parts.push(piece.part)?;
        owners.push(piece.owner)?;
        give_back(&mut pieces);
    }
    Ok(Lists { parts, owners })
}
