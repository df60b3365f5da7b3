//! Pieces noted for a few zones of a feature, each sought among all slabs.
ghost use Rattle.std.specs.Prelude.{ℕ, ◌≡◌, ◌^◌, ◌<◌, ◌↔◌, length, IsTrue, IsNone, IfSome};
ghost use Rattle.std.specs.List.{All, Any};
ghost use Rattle.dpl_sides.specs.Standing.{SlabStands, StandsFrom};
ghost use Rattle.dpl_sides.specs.Noted.{AreSidesNoted};
ghost use Rattle.dpl_sides.specs.Pieces.{parts_in};

use crate::piece::Piece;
use dpl_base::{Rect, Zone};

/// One of the two sides of a zone: that to its left or below it, or that to its right or above it.
#[derive(Clone, Copy, Drop)]
pub enum Side {
    Before,
    After,
}

/// Whether a slab stands on that side of the zone, at a corner of both.
fn stands(slab: &Rect, zone: &Rect, side: Side) -> bool
    ensures { IsTrue result ↔ SlabStands side zone.now slab.now }
{
    match side {
        Side::Before => {
            slab.x1 == zone.x0 && slab.y0 == zone.y0 || slab.x0 == zone.x0 && slab.y1 == zone.y0
        }
        Side::After => {
            slab.x0 == zone.x1 && slab.y0 == zone.y0 || slab.x0 == zone.x0 && slab.y0 == zone.y1
        }
    }
}

/// Whether one of the slabs stands on that side of the zone.
fn some_stands(slabs: &[Rect], zone: &Rect, side: Side) -> bool
    ensures { IsTrue result ↔ Any (SlabStands side zone.now) slabs.now }
{
    for slab in slabs {
        if stands(slab, zone, side) {
            return true;
        }
    }
    false
}

/// The first piece from a number on that has a slab on that side of the zone.
fn beside(pieces: &[Piece], from: usize, zone: &Zone, side: Side) -> Option<u32>
    requires { length pieces.now < 2 ^ 32 }
    ensures some { IfSome result (StandsFrom side (parts_in pieces.now) from zone.now) }
    ensures none { IsNone result → (k : ℕ) → StandsFrom side (parts_in pieces.now) from zone.now k → ⊥ }
{
    for k in from..pieces.len() {
        if some_stands(pieces[k].part.rects(), &zone.rect, side) {
            return Some(k as u32);
        }
    }
    None
}

/// Notes for each of these zones of a feature a piece on that side of it. The feature's pieces are those from a number on, and all their slabs are gone through for each zone.
pub fn note_beside(
    noted: &mut [u32],
    zones: &[Zone],
    own: &[u32],
    pieces: &[Piece],
    from: usize,
    side: Side,
)
    requires known { All (λ j. j < length zones.now) own.now }
    requires each { length noted.old ≡ length zones.now }
    requires few { length pieces.now < 2 ^ 32 }
    ensures { AreSidesNoted (StandsFrom side (parts_in pieces.now) from) zones.now own.now noted.old noted.new }
{
    for &number in own {
        if let Some(piece) = beside(pieces, from, &zones[number as usize], side) {
            noted[number as usize] = piece;
        }
    }
}
