//! What zones leave of features, one after the other.
ghost use Rattle.std.specs.Prelude.{◌≡◌, ◌+◌, ◌++◌, IfOk, OnOk, map};
ghost use Rattle.dpl_piece.specs.Made.{AddsMade, IsEmptyPile, moved_by};

use crate::made::Made;
use dpl_base::{Id, short_id};
use dpl_sides::{Piece, Sided};
use std::alloc::{AllocError, Global};

/// The numbers of features with zones, in order, the pieces into which those break them, and their zones, for which the first of all these pieces is number 0: three lists for all, so that a feature has none of its own.
#[derive(Drop)]
pub struct Pile {
    pub features: Vec<Id>,
    pub pieces: Vec<Piece>,
    pub zones: Vec<Sided>,
}

/// The number of a piece that stands so many places later. The error: out of memory, as for 2^32 pieces.
fn later(number: u32, from: usize) -> Result<u32, AllocError>
    ensures { IfOk result (λ k. k ≡ from + number) }
{
    short_id((from as Id).saturating_add(number as Id))
}

/// Adds zones whose pieces stand so many places later.
fn add_moved(zones: &mut Vec<Sided>, more: &[Sided], from: usize) -> Result<(), AllocError>
    ensures { OnOk result (zones.new.items ≡ zones.old.items ++ map (moved_by from) more.now) }
{
    for zone in more {
        zones.push(Sided {
            zone: zone.zone,
            first: later(zone.first, from)?,
            second: later(zone.second, from)?,
        })?;
    }
    Ok(())
}

impl Pile {
    /// A pile of no feature, with room for so many zones, and for twice as many pieces. The error: out of memory.
    pub fn with_room(alloc: Global, zones: usize) -> Result<Pile, AllocError>
        ensures { IfOk result IsEmptyPile }
    {
        Ok(Pile {
            features: Vec::new(alloc),
            pieces: Vec::with_capacity(alloc, zones.saturating_mul(2))?,
            zones: Vec::with_capacity(alloc, zones)?,
        })
    }

    /// Adds what was made of a feature. The error: out of memory.
    pub fn add(&mut self, made: Made) -> Result<(), AllocError>
        ensures { OnOk result (AddsMade made self.old self.new) }
    {
        let Made {
            feature,
            mut pieces,
            zones,
        } = made;
        add_moved(&mut self.zones, &zones, self.pieces.len())?;
        self.features.push(feature)?;
        self.pieces.append(&mut pieces)
    }
}
