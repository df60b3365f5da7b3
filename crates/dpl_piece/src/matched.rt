//! The pieces of a layer.
ghost use Rattle.std.specs.Prelude.{◌≡◌, ◌<◌, length, slice_index_or};
ghost use Rattle.std.specs.List.{All, AllZip};
ghost use Rattle.dpl_spec_split.specs.Squares.{IsSolidWithin};
ghost use Rattle.dpl_spec_split.specs.Loops.{farthest};
ghost use Rattle.dpl_slabs.specs.Parts.{AreParts};
ghost use Rattle.dpl_piece.specs.Cutting.{cut_pieces, keys_in, AreMatched};
ghost use Rattle.dpl_piece.specs.Wholes.{AreOwnSides, LieInSome};

use crate::key::key;
use crate::piece::Whole;
use dpl_base::{Id, Pt, Zone};
use dpl_slabs::Parts;
use std::marker::Model;

/// Pieces, numbered from 0 by least square, each with the feature that it lies in, and the zones that cut them, each with the pieces on its two sides. A contract sees the pieces' keys beside them; they are read off the pieces.
#[derive(Drop)]
pub struct Pieces {
    parts: Parts,
    owner: Vec<Id>,
    zones: Vec<Zone>,
    sides: Vec<(Id, Id)>,
    wholes: Vec<Whole>,
    count: usize,
}

/// The squares of pieces, each with its feature, the zones that cut them, each with the pieces on its two sides, and those of so many features that were cut.
#[derive(Drop)]
pub struct Cut {
    pub parts: Parts,
    pub owners: Vec<Id>,
    pub zones: Vec<Zone>,
    pub sides: Vec<(Id, Id)>,
    pub wholes: Vec<Whole>,
    pub count: usize,
}

impl Model for Pieces {
    ghost use Rattle.std.specs.List.{AllZip};
    ghost use Rattle.dpl_piece.specs.Cutting.{CutPieces, cut_pieces, keys_in, AreMatched};
    ghost use Rattle.dpl_piece.specs.Wholes.{AreOwnSides, LieInSome};

    ghost Value = { CutPieces };

    ghost view = { λ p. cut_pieces p.parts p.owner.items (keys_in p.parts) p.zones.items p.sides.items };

    ghost invariant = { λ p. AreMatched (cut_pieces p.parts p.owner.items (keys_in p.parts) p.zones.items p.sides.items) × LieInSome p.count p.parts p.owner.items p.zones.items p.wholes.items × AllZip (AreOwnSides p.owner.items) p.zones.items p.sides.items };
}

impl Pieces {
    /// Pieces with their owners, zones with their sides, and those of so many features that were cut.
    pub(crate) fn of(
        parts: Parts,
        owner: Vec<Id>,
        zones: Vec<Zone>,
        sides: Vec<(Id, Id)>,
        wholes: Vec<Whole>,
        count: usize,
    ) -> Pieces
        requires matched { AreMatched (cut_pieces parts owner.items (keys_in parts) zones.items sides.items) }
        requires wholes { LieInSome count parts owner.items zones.items wholes.items }
        requires own { AllZip (AreOwnSides owner.items) zones.items sides.items }
        ensures { result ≡ cut_pieces parts owner.items (keys_in parts) zones.items sides.items }
    {
        Pieces {
            parts,
            owner,
            zones,
            sides,
            wholes,
            count,
        }
    }

    /// The squares of each piece.
    pub fn parts(&self) -> &Parts
        ensures value { result.now ≡ self.now.parts }
        ensures keys { length self.now.keys ≡ length self.now.parts }
    {
        &self.parts
    }

    /// The number of the feature that each piece lies in.
    pub fn owner(&self) -> &[Id]
        ensures value { result.now ≡ self.now.owners }
        ensures each { length self.now.owners ≡ length self.now.parts }
    {
        self.owner.as_slice()
    }

    /// The key of a piece: its least square.
    pub fn key(&self, k: usize) -> Pt
        requires { k < length self.now.parts }
        ensures value { (d : Pt) → slice_index_or self.now.keys k d ≡ result }
    {
        key(&self.parts.items()[k])
    }

    /// The zones.
    pub fn zones(&self) -> &[Zone]
        ensures value { result.now ≡ self.now.zones }
        ensures within { All (λ z. IsSolidWithin farthest z.rect) self.now.zones }
    {
        self.zones.as_slice()
    }

    /// The numbers of the pieces on the two sides of each zone, the left or lower one first.
    pub fn sides(&self) -> &[(Id, Id)]
        ensures value { result.now ≡ self.now.sides }
        ensures each { length self.now.sides ≡ length self.now.zones }
        ensures known { All (λ side. (side.0 < length self.now.parts) × (side.1 < length self.now.parts)) self.now.sides }
    {
        self.sides.as_slice()
    }

    /// The squares of the pieces with their owners, the zones with their sides, and the features that were cut, without taking memory.
    pub fn into_cut(self) -> Cut
        ensures parts { result.parts ≡ self.parts }
        ensures owners { result.owners.items ≡ self.owners }
        ensures zones { result.zones.items ≡ self.zones }
        ensures sides { result.sides.items ≡ self.sides }
        ensures each { length self.sides ≡ length self.zones }
        ensures known { All (λ side. (side.0 < length self.parts) × (side.1 < length self.parts)) self.sides }
        ensures within { All (λ z. IsSolidWithin farthest z.rect) self.zones }
        ensures apart { AreParts self.parts }
        ensures owned { length self.owners ≡ length self.parts }
        ensures wholes { LieInSome result.count self.parts self.owners self.zones result.wholes.items }
        ensures own { AllZip (AreOwnSides self.owners) self.zones self.sides }
    {
        Cut {
            parts: self.parts,
            owners: self.owner,
            zones: self.zones,
            sides: self.sides,
            wholes: self.wholes,
            count: self.count,
        }
    }
}
