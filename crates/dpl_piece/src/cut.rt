//! Cuts features at their zones.
ghost use Rattle.std.specs.Prelude.{ℕ, ◌≡◌, IfOk};
ghost use Rattle.std.specs.List.{All};
ghost use Rattle.dpl_sides.specs.Corners.{StandBeside};
ghost use Rattle.dpl_piece.specs.Cutting.{AreBarePieces, AreFeatures, AreTheirZones, AreTheirPieces};
ghost use Rattle.dpl_piece.specs.Made.{AreAllMade};
ghost use Rattle.dpl_piece.specs.Pieces.{AreZonesFrom};

use crate::bare::BarePieces;
use crate::made::made_by;
use crate::matched::Pieces;
use crate::own::by_feature;
use crate::piece::{CutUp, Lists, lists_of};
use crate::pile::Pile;
use crate::rest::pieces_of;
use dpl_base::Zone;
use dpl_slabs::Parts;
use std::alloc::{AllocError, Global};
use std::thread::Threads;

/// How many workers break features at most.
const MOST_WORKERS: u32 = 64;

/// The pieces of features, whose zones' numbers are given by feature, and of some of which the pieces are given.
fn bare_of(
    alloc: Global,
    features: Parts,
    zones: Vec<Zone>,
    sorted: Vec<u32>,
    made: Vec<Pile>,
) -> Result<BarePieces, AllocError>
    requires features { AreFeatures features }
    requires zones { AreTheirZones features zones.items }
    requires sorted { AreZonesFrom zones.items 0 sorted.items }
    requires made { AreAllMade features zones.items made.items }
    ensures zones { IfOk result (λ b. b.zones ≡ zones.items) }
    ensures pieces { IfOk result (AreBarePieces features zones.items) }
    ensures stand { IfOk result (λ b. All (λ z. (side : ℕ × ℕ) × StandBeside b.parts z side) b.zones) }
{
    let count = features.items().len();
    let cut = pieces_of(alloc, features.into_vec(), &zones, sorted, made)?;
    let CutUp {
        pieces,
        wholes,
        sides,
    } = cut;
    let Lists { parts, owners } = lists_of(alloc, pieces)?;
    let parts = Parts::of(parts);
    Ok(BarePieces::of(parts, owners, zones, sides, wholes, count))
}

/// The pieces that the zones of features leave of them, as they are kept while their conflicts are found. A feature without a zone is moved, as it is. 2^32 zones or pieces, or more, are refused as out of memory, which so many would be.
pub fn bare_pieces(
    alloc: Global,
    features: Parts,
    zones: Vec<Zone>,
) -> Result<BarePieces, AllocError>
    requires features { AreFeatures features }
    requires zones { AreTheirZones features zones.items }
    ensures zones { IfOk result (λ b. b.zones ≡ zones.items) }
    ensures pieces { IfOk result (AreBarePieces features zones.items) }
    ensures stand { IfOk result (λ b. All (λ z. (side : ℕ × ℕ) × StandBeside b.parts z side) b.zones) }
{
    let sorted = by_feature(alloc, &zones)?;
    bare_of(alloc, features, zones, sorted, Vec::new(alloc))
}

/// The same, where so many workers break the features with zones side by side. A thread that can't be made has its work done by the one that asked for it. More than 64 workers are as 64.
///
/// The error: out of memory, once all workers have ended.
pub fn bare_pieces_by<R: Threads + Sync>(
    rt: &R,
    alloc: Global,
    features: Parts,
    zones: Vec<Zone>,
    workers: u32,
) -> Result<BarePieces, AllocError>
    requires features { AreFeatures features }
    requires zones { AreTheirZones features zones.items }
    ensures zones { IfOk result (λ b. b.zones ≡ zones.items) }
    ensures pieces { IfOk result (AreBarePieces features zones.items) }
    ensures stand { IfOk result (λ b. All (λ z. (side : ℕ × ℕ) × StandBeside b.parts z side) b.zones) }
{
    if workers < 2 {
        return bare_pieces(alloc, features, zones);
    }
    let sorted = by_feature(alloc, &zones)?;
    let made = made_by(
        rt,
        alloc,
        features.items(),
        &zones,
        &sorted,
        workers.min(MOST_WORKERS),
    )?;
    bare_of(alloc, features, zones, sorted, made)
}

/// The pieces that the zones of features leave of them, with the pieces on the two sides of each zone. A feature without a zone is moved, as it is. 2^32 zones or pieces, or more, are refused as out of memory, which so many would be.
pub fn pieces(alloc: Global, features: Parts, zones: Vec<Zone>) -> Result<Pieces, AllocError>
    requires features { AreFeatures features }
    requires zones { AreTheirZones features zones.items }
    ensures zones { IfOk result (λ p. p.zones ≡ zones.items) }
    ensures pieces { IfOk result (λ p. AreTheirPieces features zones.items p) }
{
    let bare = bare_pieces(alloc, features, zones)?;
    bare.completed(alloc)
}
