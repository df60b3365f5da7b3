//! Pieces noted for the zones that they stand beside.
ghost use Rattle.std.specs.Prelude.{◌≡◌, ◌<◌, ◌≤◌, ◌∷◌, [], ℕ, List, length, map, IfOk, OnOk};
ghost use Rattle.dpl_spec_split.specs.declared.Rect.{Rect as RectOf};
ghost use Rattle.std.specs.List.{All};
ghost use Rattle.dpl_sides.specs.Corners.{slab_corner, AreSlabsWithin, RiseByCorner};
ghost use Rattle.dpl_sides.specs.Sided.{numbers_in, sides_in};
ghost use Rattle.dpl_sides.specs.Noted.{AreMoved, AreNoted, AreNotedAnew, AreSidesNoted, StandsAfterFrom, StandsBeforeFrom};
ghost use Rattle.dpl_sides.specs.Pieces.{parts_in};

use crate::corner::{Corner, Kind, Slab, count_before, list_slabs, rect_corner, zone_corners};
use crate::piece::Piece;
use crate::sided::Sided;
use crate::standing::{Side, note_beside};
use dpl_base::{Id, Zone, short_id};
use std::alloc::{AllocError, Global};
use std::thread::{Threads, join};

/// For how many zones of a feature pieces are sought among all slabs, without sorting those.
const FEW_ZONES: usize = 8;

/// The pieces on the two sides of each zone, as far as they are noted, and two lists, of slabs and of zones' corners, that are made for one feature after the other.
#[derive(Drop)]
pub struct Noted {
    pub firsts: Vec<u32>,
    pub seconds: Vec<u32>,
    slabs: Vec<Slab>,
    corners: Vec<Corner>,
}

impl Noted {
    /// Nothing noted of so many zones. The error: out of memory.
    pub fn new(alloc: Global, count: usize) -> Result<Noted, AllocError>
        ensures firsts { IfOk result (λ n. length n.firsts.items ≡ count) }
        ensures seconds { IfOk result (λ n. length n.seconds.items ≡ count) }
    {
        Ok(Noted {
            firsts: vec![in alloc; 0; count]?,
            seconds: vec![in alloc; 0; count]?,
            slabs: Vec::new(alloc),
            corners: Vec::new(alloc),
        })
    }
}

/// Notes the number of a slab's corner for each zone that has a corner there. The corners are sought from a place on; returns where the first of them is, or would be.
fn note(noted: &mut [u32], corners: &[Corner], corner: Corner, place: usize) -> usize
    requires numbers { All (λ c. c.number < length noted.old) corners.now }
    requires rise { RiseByCorner corners.now }
    ensures { AreNoted (corner ∷ []) corners.now noted.old noted.new }
{
    let first = count_before(corners, place, corner.x, corner.y);
    for i in first..corners.len() {
        let c = corners[i];
        if c.x != corner.x || c.y != corner.y {
            return first;
        }
        noted[c.number as usize] = corner.number;
    }
    first
}

/// Notes the numbers of slabs for the zones that have a corner at one of that kind of theirs. Each is sought where the one before it was, so that few steps are taken where these are nearly in order.
fn note_all(noted: &mut [u32], corners: &[Corner], slabs: &[Slab], kind: Kind)
    requires numbers { All (λ c. c.number < length noted.old) corners.now }
    requires rise { RiseByCorner corners.now }
    ensures { AreNoted (map (slab_corner kind) slabs.now) corners.now noted.old noted.new }
{
    let mut place = 0;
    for slab in slabs {
        let corner = rect_corner(&slab.rect, slab.number, kind);
        place = note(noted, corners, corner, place);
    }
}

/// Notes for each of these zones of a feature the piece to its left, or below it, by the slabs of the feature's pieces.
fn note_firsts(
    noted: &mut [u32],
    corners: &mut Vec<Corner>,
    slabs: &[Slab],
    zones: &[Zone],
    own: &[u32],
) -> Result<(), AllocError>
    requires known { All (λ j. j < length zones.now) own.now }
    requires each { length noted.old ≡ length zones.now }
    ensures { OnOk result ((parts : List (List RectOf)) (from : ℕ) → AreSlabsWithin parts from (length parts) slabs.now → AreSidesNoted (StandsBeforeFrom parts from) zones.now own.now noted.old noted.new) }
{
    zone_corners(corners, zones, own, Kind::LowerLeft)?;
    note_all(noted, corners, slabs, Kind::LowerRight);
    note_all(noted, corners, slabs, Kind::UpperLeft);
    Ok(())
}

/// Notes for each of these zones of a feature the piece to its right, or above it, by the slabs of the feature's pieces.
fn note_seconds(
    noted: &mut [u32],
    corners: &mut Vec<Corner>,
    slabs: &[Slab],
    zones: &[Zone],
    own: &[u32],
) -> Result<(), AllocError>
    requires known { All (λ j. j < length zones.now) own.now }
    requires each { length noted.old ≡ length zones.now }
    ensures { OnOk result ((parts : List (List RectOf)) (from : ℕ) → AreSlabsWithin parts from (length parts) slabs.now → AreSidesNoted (StandsAfterFrom parts from) zones.now own.now noted.old noted.new) }
{
    zone_corners(corners, zones, own, Kind::LowerRight)?;
    note_all(noted, corners, slabs, Kind::LowerLeft);
    zone_corners(corners, zones, own, Kind::UpperLeft)?;
    note_all(noted, corners, slabs, Kind::LowerLeft);
    Ok(())
}

/// Notes the pieces on the two sides of each of these zones of a feature, whose pieces are those from a number on. 2^32 pieces or more are refused as out of memory, which so many would be.
pub fn note_sides(
    noted: &mut Noted,
    zones: &[Zone],
    own: &[u32],
    pieces: &[Piece],
    from: usize,
) -> Result<(), AllocError>
    requires known { All (λ j. j < length zones.now) own.now }
    requires firsts { length noted.old.firsts.items ≡ length zones.now }
    requires seconds { length noted.old.seconds.items ≡ length zones.now }
    requires from { from ≤ length pieces.now }
    ensures firsts { OnOk result (AreSidesNoted (StandsBeforeFrom (parts_in pieces.now) from) zones.now own.now noted.old.firsts.items noted.new.firsts.items) }
    ensures seconds { OnOk result (AreSidesNoted (StandsAfterFrom (parts_in pieces.now) from) zones.now own.now noted.old.seconds.items noted.new.seconds.items) }
{
    if own.is_empty() {
        return Ok(());
    }
    short_id(pieces.len() as Id)?;
    if own.len() <= FEW_ZONES {
        note_beside(&mut noted.firsts, zones, own, pieces, from, Side::Before);
        note_beside(&mut noted.seconds, zones, own, pieces, from, Side::After);
        return Ok(());
    }
    list_slabs(&mut noted.slabs, pieces, from)?;
    note_firsts(
        &mut noted.firsts,
        &mut noted.corners,
        &noted.slabs,
        zones,
        own,
    )?;
    note_seconds(
        &mut noted.seconds,
        &mut noted.corners,
        &noted.slabs,
        zones,
        own,
    )?;
    Ok(())
}

/// For each of these zones the piece to its left, or below it, by the slabs of pieces.
fn firsts_of(
    alloc: Global,
    slabs: &[Slab],
    zones: &[Zone],
    own: &[u32],
) -> Result<Vec<u32>, AllocError>
    requires { All (λ j. j < length zones.now) own.now }
    ensures { IfOk result (λ v. (parts : List (List RectOf)) → AreSlabsWithin parts 0 (length parts) slabs.now → AreNotedAnew (StandsBeforeFrom parts 0) zones.now own.now v.items) }
{
    let mut firsts = vec![in alloc; 0; zones.len()]?;
    let mut corners = Vec::new(alloc);
    note_firsts(&mut firsts, &mut corners, slabs, zones, own)?;
    Ok(firsts)
}

/// For each of these zones the piece to its right, or above it, by the slabs of pieces.
fn seconds_of(
    alloc: Global,
    slabs: &[Slab],
    zones: &[Zone],
    own: &[u32],
) -> Result<Vec<u32>, AllocError>
    requires { All (λ j. j < length zones.now) own.now }
    ensures { IfOk result (λ v. (parts : List (List RectOf)) → AreSlabsWithin parts 0 (length parts) slabs.now → AreNotedAnew (StandsAfterFrom parts 0) zones.now own.now v.items) }
{
    let mut seconds = vec![in alloc; 0; zones.len()]?;
    let mut corners = Vec::new(alloc);
    note_seconds(&mut seconds, &mut corners, slabs, zones, own)?;
    Ok(seconds)
}

/// The pieces on the two sides of each of these zones of a feature; those on one side by a thread of their own where there are two, if one can be made. The error: out of memory; 2^32 pieces or more are refused as that, which so many would be.
pub fn sides_of<R: Threads>(
    rt: &R,
    alloc: Global,
    zones: &[Zone],
    own: &[u32],
    pieces: &[Piece],
    threads: usize,
) -> Result<Noted, AllocError>
    requires { All (λ j. j < length zones.now) own.now }
    ensures firsts { IfOk result (λ n. AreNotedAnew (StandsBeforeFrom (parts_in pieces.now) 0) zones.now own.now n.firsts.items) }
    ensures seconds { IfOk result (λ n. AreNotedAnew (StandsAfterFrom (parts_in pieces.now) 0) zones.now own.now n.seconds.items) }
{
    if threads < 2 {
        let mut noted = Noted::new(alloc, zones.len())?;
        note_sides(&mut noted, zones, own, pieces, 0)?;
        return Ok(noted);
    }
    short_id(pieces.len() as Id)?;
    let mut slabs = Vec::new(alloc);
    list_slabs(&mut slabs, pieces, 0)?;
    let (firsts, seconds) = join(
        rt,
        || -> Result<Vec<u32>, AllocError>
            requires { All (λ j. j < length zones.now) own.now }
            ensures { IfOk result (λ v. (parts : List (List RectOf)) → AreSlabsWithin parts 0 (length parts) slabs.items → AreNotedAnew (StandsBeforeFrom parts 0) zones.entry.now own.entry.now v.items) }
        { firsts_of(alloc, &slabs, zones, own) },
        || -> Result<Vec<u32>, AllocError>
            requires { All (λ j. j < length zones.now) own.now }
            ensures { IfOk result (λ v. (parts : List (List RectOf)) → AreSlabsWithin parts 0 (length parts) slabs.items → AreNotedAnew (StandsAfterFrom parts 0) zones.entry.now own.entry.now v.items) }
        { seconds_of(alloc, &slabs, zones, own) },
    );
    Ok(Noted {
        firsts: firsts?,
        seconds: seconds?,
        slabs,
        corners: Vec::new(alloc),
    })
}

/// Notes for each of these zones the number of the piece on that side of it, so many later. 2^32 or more is refused as out of memory, which so many pieces would be.
pub fn note_moved(
    noted: &mut [u32],
    zones: &[Sided],
    side: Side,
    from: usize,
) -> Result<(), AllocError>
    requires { All (λ j. j < length noted.old) (numbers_in zones.now) }
    ensures { OnOk result (AreMoved from (numbers_in zones.now) (sides_in side zones.now) noted.old noted.new) }
{
    for zone in zones {
        let number = zone.on(side) as Id;
        noted[zone.zone as usize] = short_id((from as Id).saturating_add(number))?;
    }
    Ok(())
}
