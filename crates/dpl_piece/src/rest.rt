//! What zones leave of features.
ghost use Rattle.std.specs.Prelude.{◌≡◌, ◌<◌, ◌↔◌, List, IfOk, IsTrue, OnOk, length, map};
ghost use Rattle.std.specs.List.{All, AllZip, flat_map};
ghost use Rattle.dpl_spec_split.specs.declared.Rect.{Rect as RectOf};
ghost use Rattle.dpl_spec_split.specs.Loops.{farthest, AreRectsWithin};
ghost use Rattle.dpl_piece.specs.Cutting.{AreFeatures, AreTheirZones};
ghost use Rattle.dpl_sides.specs.Corners.{StandBeside};
ghost use Rattle.dpl_sides.specs.declared.standing.Side.TheVariants.{Before, After};
ghost use Rattle.dpl_sides.specs.Sided.{numbers_in, sides_in};
ghost use Rattle.dpl_piece.specs.Made.{AreAllMade, AreLeft};
ghost use Rattle.dpl_sides.specs.Noted.{AreMoved, IsSortedWith};
ghost use Rattle.dpl_sides.specs.Pieces.{rect_at, parts_in};
ghost use Rattle.dpl_piece.specs.Adding.{AddsFeature, AddsNext, AddsPile, IsBegun, IsMadeAt, IsUncut};
ghost use Rattle.dpl_piece.specs.Pieces.{AddsPieces, AreCut, AreZonesFrom};
ghost use Rattle.dpl_piece.specs.Wholes.{AreWholes, KeepsWhole};

use crate::made::{add_parts, broken};
use crate::own::{holes_at, own_count};
use crate::piece::{CutUp, Whole};
use crate::pile::Pile;
use dpl_base::{Id, Zone};
use dpl_sides::{Noted, Origin, Piece, Side, Sided, note_moved, note_sides, sort_with_sides};
use dpl_slabs::Slabs;
use std::alloc::{AllocError, Global};

/// What the zones of these numbers leave of their feature. None where no zone is the feature's.
fn parts_of(
    alloc: Global,
    feature: &Slabs,
    zones: &[Zone],
    own: &[u32],
) -> Result<Option<Vec<Slabs>>, AllocError>
    requires known { All (λ j. j < length zones.now) own.now }
    requires within { AreRectsWithin farthest (map (rect_at zones.now) own.now) }
    ensures { IfOk result (AreLeft feature.now (map (rect_at zones.now) own.now)) }
{
    if own.is_empty() {
        return Ok(None);
    }
    let holes = holes_at(alloc, zones, own)?;
    Ok(Some(broken(alloc, feature, holes)?))
}

/// Adds the pieces of a feature: its parts, where zones broke it, or else the feature, moved as it is. A feature that was broken is kept.
fn add_pieces(
    pieces: &mut Vec<Piece>,
    wholes: &mut Vec<Whole>,
    feature: Slabs,
    parts: Option<Vec<Slabs>>,
    number: Id,
) -> Result<(), AllocError>
    ensures adds { OnOk result ((holes : List RectOf) → AreLeft feature holes parts → AddsPieces feature holes number pieces.old.items pieces.new.items) }
    ensures keeps { OnOk result ((holes : List RectOf) → AreLeft feature holes parts → KeepsWhole feature holes number wholes.old.items wholes.new.items) }
{
    let Some(parts) = parts else {
        pieces.push(Piece {
            part: feature,
            owner: number,
            origin: Origin::Whole,
            number: 0,
        })?;
        return Ok(());
    };
    add_parts(pieces, parts, number)?;
    wholes.push(Whole {
        feature: number,
        set: feature,
    })?;
    Ok(())
}

/// The pieces so far, the features so far that were cut, the pieces noted for the zones, and the numbers of the features that workers cut, whose pieces come first.
#[derive(Drop)]
struct Cutting {
    pieces: Vec<Piece>,
    wholes: Vec<Whole>,
    noted: Noted,
    made: Vec<Id>,
}

/// Notes the pieces on the two sides of some features' zones, of which the first is number `from`.
fn note_made(noted: &mut Noted, zones: &[Sided], from: usize) -> Result<(), AllocError>
    requires firsts { All (λ j. j < length noted.old.firsts.items) (numbers_in zones.now) }
    requires seconds { All (λ j. j < length noted.old.seconds.items) (numbers_in zones.now) }
    ensures firsts { OnOk result (AreMoved from (numbers_in zones.now) (sides_in Before zones.now) noted.old.firsts.items noted.new.firsts.items) }
    ensures seconds { OnOk result (AreMoved from (numbers_in zones.now) (sides_in After zones.now) noted.old.seconds.items noted.new.seconds.items) }
{
    note_moved(&mut noted.firsts, zones, Side::Before, from)?;
    note_moved(&mut noted.seconds, zones, Side::After, from)
}

impl Cutting {
    /// No piece, with room for so many, and nothing noted of so many zones.
    fn new(alloc: Global, room: usize, zones: usize) -> Result<Cutting, AllocError>
        ensures { IfOk result (IsUncut zones) }
    {
        let noted = Noted::new(alloc, zones)?;
        Ok(Cutting {
            pieces: Vec::with_capacity(alloc, room)?,
            wholes: Vec::new(alloc),
            noted,
            made: Vec::new(alloc),
        })
    }

    /// Adds the pieces of the features that a worker cut, and notes those on the two sides of their zones.
    fn add_pile(&mut self, pile: Pile) -> Result<(), AllocError>
        requires firsts { All (λ j. j < length self.old.noted.firsts.items) (numbers_in pile.zones.items) }
        requires seconds { All (λ j. j < length self.old.noted.seconds.items) (numbers_in pile.zones.items) }
        ensures { OnOk result (AddsPile pile self.old self.new) }
    {
        let Pile {
            mut features,
            mut pieces,
            zones,
        } = pile;
        note_made(&mut self.noted, &zones, self.pieces.len())?;
        self.pieces.append(&mut pieces)?;
        self.made.append(&mut features)
    }

    /// Begins with the pieces of the features that workers cut, pile by pile, with room for so many pieces in all.
    fn begun(
        alloc: Global,
        piles: Vec<Pile>,
        room: usize,
        zones: &[Zone],
    ) -> Result<Cutting, AllocError>
        requires { All (λ b. All (λ j. j < length zones.now) (numbers_in b.zones.items)) piles.items }
        ensures made { IfOk result (λ c. c.made.items ≡ flat_map (λ b. b.features.items) piles.items) }
        ensures begun { IfOk result (λ c. (features : List (List RectOf)) → AreFeatures features → AreTheirZones features zones.now → AreAllMade features zones.now piles.items → IsBegun features zones.now c) }
    {
        let mut cutting = Cutting::new(alloc, room, zones.len())?;
        for pile in piles {
            cutting.add_pile(pile)?;
        }
        Ok(cutting)
    }

    /// Adds the pieces into which its own zones break a feature, and notes those on the two sides of these.
    fn add_cut(
        &mut self,
        alloc: Global,
        feature: Slabs,
        number: Id,
        zones: &[Zone],
        own: &[u32],
    ) -> Result<(), AllocError>
        requires known { All (λ j. j < length zones.now) own.now }
        requires within { AreRectsWithin farthest (map (rect_at zones.now) own.now) }
        requires firsts { length self.old.noted.firsts.items ≡ length zones.now }
        requires seconds { length self.old.noted.seconds.items ≡ length zones.now }
        ensures { OnOk result (AddsFeature feature zones.now own.now number self.old self.new) }
    {
        let parts = parts_of(alloc, &feature, zones, own)?;
        let from = self.pieces.len();
        add_pieces(&mut self.pieces, &mut self.wholes, feature, parts, number)?;
        note_sides(&mut self.noted, zones, own, &self.pieces, from)
    }

    /// Whether workers made the pieces of this feature, and it stands at this place among those.
    fn is_made_at(&self, place: usize, number: Id) -> bool
        ensures { IsTrue result ↔ IsMadeAt self.now.made.items place number }
    {
        match self.made.get(place) {
            Some(&made) => made == number,
            None => false,
        }
    }

    /// Adds the next feature. Where it stands at this place among those that workers cut, it is only kept; else its own zones break it, and its pieces are added. Returns the place of the next of those. The error: out of memory.
    fn add(
        &mut self,
        alloc: Global,
        feature: Slabs,
        number: Id,
        zones: &[Zone],
        own: &[u32],
        place: usize,
    ) -> Result<usize, AllocError>
        requires known { All (λ j. j < length zones.now) own.now }
        requires within { AreRectsWithin farthest (map (rect_at zones.now) own.now) }
        requires firsts { length self.old.noted.firsts.items ≡ length zones.now }
        requires seconds { length self.old.noted.seconds.items ≡ length zones.now }
        ensures { IfOk result (λ next. AddsNext feature zones.now own.now number place next self.old self.new) }
    {
        if self.is_made_at(place, number) {
            self.wholes.push(Whole {
                feature: number,
                set: feature,
            })?;
            return Ok(place + 1);
        }
        self.add_cut(alloc, feature, number, zones, own)?;
        Ok(place)
    }

    /// The pieces, sorted and numbered, those on the two sides of each zone, and the features that were cut.
    fn sorted(self, alloc: Global) -> Result<CutUp, AllocError>
        requires each { length self.noted.seconds.items ≡ length self.noted.firsts.items }
        requires firsts { All (λ k. k < length self.pieces.items) self.noted.firsts.items }
        requires seconds { All (λ k. k < length self.pieces.items) self.noted.seconds.items }
        ensures sorted { IfOk result (λ v. IsSortedWith self.pieces.items v.pieces.items self.noted.firsts.items self.noted.seconds.items v.sides.items) }
        ensures wholes { IfOk result (λ v. v.wholes.items ≡ self.wholes.items) }
    {
        let Cutting {
            mut pieces,
            wholes,
            noted,
            made,
        } = self;
        drop(made);
        let sides = sort_with_sides(alloc, &mut pieces, noted)?;
        Ok(CutUp {
            pieces,
            wholes,
            sides,
        })
    }
}

/// The components of what the zones leave of the features, each with the feature that it lies in, and those on the two sides of each zone. A feature without a zone is moved, as it is; any other is cut by its own zones, feature by feature, where workers didn't do that before. The numbers of the zones are given by feature.
pub fn pieces_of(
    alloc: Global,
    features: Vec<Slabs>,
    zones: &[Zone],
    sorted: Vec<u32>,
    made: Vec<Pile>,
) -> Result<CutUp, AllocError>
    requires features { AreFeatures features.items }
    requires zones { AreTheirZones features.items zones.now }
    requires within { All (AreRectsWithin farthest) features.items }
    requires sorted { AreZonesFrom zones.now 0 sorted.items }
    requires made { AreAllMade features.items zones.now made.items }
    ensures cut { IfOk result (λ v. AreCut features.items zones.now v.pieces.items) }
    ensures wholes { IfOk result (λ v. AreWholes features.items zones.now v.wholes.items) }
    ensures sides { IfOk result (λ v. AllZip (StandBeside (parts_in v.pieces.items)) zones.now v.sides.items) }
{
    let room = features.len().saturating_add(zones.len());
    let mut cutting = Cutting::begun(alloc, made, room, zones)?;
    let mut rest = sorted.as_slice();
    let mut place = 0;
    let mut number = 0;
    for feature in features {
        let (own, others) = rest.split_at(own_count(zones, rest, number));
        place = cutting.add(alloc, feature, number, zones, own, place)?;
        rest = others;
        number += 1;
    }
    cutting.sorted(alloc)
}
