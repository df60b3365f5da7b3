//! What zones leave of features, made by workers before the features' turn.
ghost use Rattle.std.specs.Prelude.{◌≡◌, ◌+◌, ◌++◌, ◌∷◌, ◌<◌, ◌≤◌, ◌↔◌, [], IsTrue, IfOk, Ok, OnOk, length, map, slice_index_or};
ghost use Rattle.std.specs.List.{All};
ghost use Rattle.dpl_spec_split.specs.Loops.{farthest, AreRectsWithin};
ghost use Rattle.dpl_piece.specs.Cutting.{AreFeatures, AreTheirZones};
ghost use Rattle.dpl_sides.specs.declared.standing.Side.TheVariants.{Before, After};
ghost use Rattle.dpl_sides.specs.Noted.{AreSidesOf, StandsAfterFrom, StandsBeforeFrom};
ghost use Rattle.dpl_sides.specs.Sided.{numbers_in, sides_in};
ghost use Rattle.dpl_piece.specs.Made.{AreAllMade, AreMade, AreMadeOf, BeginsAt, IsOfPlaces};
ghost use Rattle.dpl_sides.specs.Pieces.{parts_in, rect_at};
ghost use Rattle.dpl_piece.specs.Pieces.{broken_piece, feature_at, AddsBroken, AreBroken, AreZonesFrom};

use crate::bar::bar_parts;
use crate::own::{feature_of, holes_at, own_count, short_numbers, zones_at};
use crate::pile::Pile;
use dpl_base::{Id, Rect, Zone, give_back};
use dpl_sides::{Origin, Piece, Sided, sides_of, with_sides};
use dpl_slabs::Slabs;
use std::alloc::{AllocError, Global};
use std::thread::{Threads, map_chunks};

/// With how many zones a feature may have those on their two sides noted by two threads.
const MANY_ZONES: usize = 8_192;

/// The number of a feature with zones, the pieces into which they break it, and its zones, for which the feature's first piece is number 0.
#[derive(Drop)]
pub struct Made {
    pub feature: Id,
    pub pieces: Vec<Piece>,
    pub zones: Vec<Sided>,
}

/// Adds pieces that zones broke off a feature. Their list is reversed and emptied from the end, so that its room is given back on the way.
pub fn add_parts(
    pieces: &mut Vec<Piece>,
    mut parts: Vec<Slabs>,
    number: Id,
) -> Result<(), AllocError>
    ensures { OnOk result (pieces.new.items ≡ pieces.old.items ++ map (broken_piece number) parts.items) }
{
    parts.reverse();
    while let Some(part) = parts.pop() {
        pieces.push(Piece {
            part,
            owner: number,
            origin: Origin::Broken,
            number: 0,
        })?;
        give_back(&mut parts);
    }
    Ok(())
}

/// The parts into which holes break a feature.
pub fn broken(alloc: Global, feature: &Slabs, holes: Vec<Rect>) -> Result<Vec<Slabs>, AllocError>
    requires { AreRectsWithin farthest holes.items }
    ensures { IfOk result (λ v. AreBroken feature.now holes.items v.items) }
{
    if let [bar] = feature.rects()
        && let Some(parts) = bar_parts(alloc, bar, &holes)?
    {
        return Ok(parts);
    }
    let left = Slabs::of_rects_without(alloc, feature.rects(), &holes)?;
    drop(holes);
    let parts = dpl_feature::features(alloc, &left)?;
    Ok(parts.into_vec())
}

/// The pieces into which holes break a feature.
fn broken_pieces(
    alloc: Global,
    feature: &Slabs,
    holes: Vec<Rect>,
    number: Id,
) -> Result<Vec<Piece>, AllocError>
    requires { AreRectsWithin farthest holes.items }
    ensures { IfOk result (λ v. AddsBroken feature.now holes.items number [] v.items) }
{
    let parts = broken(alloc, feature, holes)?;
    let mut pieces = Vec::with_capacity(alloc, parts.len())?;
    add_parts(&mut pieces, parts, number)?;
    Ok(pieces)
}

/// The zones of these numbers, which are all those of a feature, with its pieces on their two sides, by so many threads.
fn sided<R: Threads>(
    rt: &R,
    alloc: Global,
    zones: &[Zone],
    own: &[u32],
    pieces: &[Piece],
    threads: usize,
) -> Result<Vec<Sided>, AllocError>
    requires { All (λ j. j < length zones.now) own.now }
    ensures own { IfOk result (λ v. numbers_in v.items ≡ own.now) }
    ensures firsts { IfOk result (λ v. AreSidesOf (StandsBeforeFrom (parts_in pieces.now) 0) zones.now own.now (sides_in Before v.items)) }
    ensures seconds { IfOk result (λ v. AreSidesOf (StandsAfterFrom (parts_in pieces.now) 0) zones.now own.now (sides_in After v.items)) }
{
    let own_zones = zones_at(alloc, zones, own)?;
    let numbers = short_numbers(alloc, own.len())?;
    let noted = sides_of(rt, alloc, &own_zones, &numbers, pieces, threads)?;
    with_sides(alloc, own, &noted.firsts, &noted.seconds)
}

/// What the zones of these numbers, which are all those of a feature, make of it, by so many threads.
fn made_of<R: Threads>(
    rt: &R,
    alloc: Global,
    feature: &Slabs,
    zones: &[Zone],
    own: &[u32],
    number: Id,
    threads: usize,
) -> Result<Made, AllocError>
    requires known { All (λ j. j < length zones.now) own.now }
    requires within { AreRectsWithin farthest (map (rect_at zones.now) own.now) }
    ensures feature { IfOk result (λ m. m.feature ≡ number) }
    ensures own { IfOk result (λ m. numbers_in m.zones.items ≡ own.now) }
    ensures breaks { IfOk result (AreMadeOf feature.now zones.now) }
{
    let holes = holes_at(alloc, zones, own)?;
    let pieces = broken_pieces(alloc, feature, holes, number)?;
    let zones = sided(rt, alloc, zones, own, &pieces, threads)?;
    Ok(Made {
        feature: number,
        pieces,
        zones,
    })
}

/// How many threads there are for a feature with so many zones, where each worker has so many: two where the next one has less to do than half of its share.
fn threads_for(zones: usize, share: usize) -> usize {
    if zones >= MANY_ZONES && zones / 3 > share / 2 {
        2
    } else {
        1
    }
}

/// Whether the zones of a feature begin at this place.
fn begins(zones: &[Zone], sorted: &[u32], place: usize) -> bool
    requires { place < length sorted.now }
    ensures { IsTrue result ↔ BeginsAt zones.now sorted.now place }
{
    if place == 0 {
        return true;
    }
    let before = sorted[place - 1] as usize;
    feature_of(zones, before) != feature_of(zones, sorted[place] as usize)
}

/// Adds what is made of the feature whose zones begin at this place, which comes behind the others.
fn add_from<R: Threads>(
    rt: &R,
    alloc: Global,
    made: &mut Pile,
    features: &[Slabs],
    zones: &[Zone],
    sorted: &[u32],
    place: usize,
    share: usize,
) -> Result<(), AllocError>
    requires features { AreFeatures features.now }
    requires zones { AreTheirZones features.now zones.now }
    requires within { All (AreRectsWithin farthest) features.now }
    requires sorted { AreZonesFrom zones.now 0 sorted.now }
    requires place { place < length sorted.now }
    requires begins { BeginsAt zones.now sorted.now place }
    requires made { AreMade features.now zones.now made.old }
    requires behind { All (λ k. k < feature_at zones.now (slice_index_or sorted.now place 0)) made.old.features.items }
    ensures made { OnOk result (AreMade features.now zones.now made.new) }
    ensures features { OnOk result (made.new.features.items ≡ made.old.features.items ++ feature_at zones.now (slice_index_or sorted.now place 0) ∷ []) }
{
    let feature = feature_of(zones, sorted[place] as usize);
    let (_, rest) = sorted.split_at(place);
    let (own, _) = rest.split_at(own_count(zones, rest, feature));
    let next = made_of(
        rt,
        alloc,
        &features[feature as usize],
        zones,
        own,
        feature,
        threads_for(own.len(), share),
    )?;
    made.add(next)
}

/// Breaks the features whose zones begin at one of so many places from a place on.
fn made_from<R: Threads>(
    rt: &R,
    alloc: Global,
    features: &[Slabs],
    zones: &[Zone],
    sorted: &[u32],
    place: usize,
    count: usize,
) -> Result<Pile, AllocError>
    requires features { AreFeatures features.now }
    requires zones { AreTheirZones features.now zones.now }
    requires within { All (AreRectsWithin farthest) features.now }
    requires sorted { AreZonesFrom zones.now 0 sorted.now }
    requires place { place + count ≤ length sorted.now }
    ensures made { IfOk result (AreMade features.now zones.now) }
    ensures places { IfOk result (λ b. All (IsOfPlaces zones.now sorted.now place (place + count)) b.features.items) }
{
    let mut made = Pile::with_room(alloc, count)?;
    for at in place..place + count {
        if begins(zones, sorted, at) {
            add_from(rt, alloc, &mut made, features, zones, sorted, at, count)?;
        }
    }
    Ok(made)
}

/// The piles, where each was made.
fn gathered(alloc: Global, made: Vec<Result<Pile, AllocError>>) -> Result<Vec<Pile>, AllocError>
    ensures { IfOk result (λ v. made.items ≡ map Ok v.items) }
{
    let mut piles = Vec::with_capacity(alloc, made.len())?;
    for pile in made {
        piles.push(pile?)?;
    }
    Ok(piles)
}

/// The pieces of the features with zones, made by so many workers, each of which has as many zones: a pile for each run of zones, in order, which is empty where no feature's zones begin in its run. The error: out of memory, once all workers have ended.
pub fn made_by<R: Threads + Sync>(
    rt: &R,
    alloc: Global,
    features: &[Slabs],
    zones: &[Zone],
    sorted: &[u32],
    workers: u32,
) -> Result<Vec<Pile>, AllocError>
    requires features { AreFeatures features.now }
    requires zones { AreTheirZones features.now zones.now }
    requires within { All (AreRectsWithin farthest) features.now }
    requires sorted { AreZonesFrom zones.now 0 sorted.now }
    requires workers { 1 ≤ workers }
    ensures { IfOk result (λ v. AreAllMade features.now zones.now v.items) }
{
    let size = sorted.len().div_ceil(workers as usize).max(1);
    let made = map_chunks(
        rt,
        alloc,
        sorted,
        size,
        &|place, chunk| { made_from(rt, alloc, features, zones, sorted, place, chunk.len()) },
    )?;
    gathered(alloc, made)
}
