//! The pieces of a layer while their conflicts are found.
ghost use Rattle.std.specs.Prelude.{◌≡◌, IfOk, length};
ghost use Rattle.dpl_piece.specs.Cutting.{AreBare, Completes, bare_cut};
ghost use Rattle.dpl_piece.specs.Wholes.{LieInSome};

use crate::matched::Pieces;
use crate::piece::Whole;
use dpl_base::{Id, Zone};
use dpl_slabs::Parts;
use std::alloc::{AllocError, Global};
use std::marker::Model;

/// Pieces, numbered from 0 by least square, each with the feature that it lies in, and the zones that cut them. Conflicts are found from these alone; the pieces on the two sides of each zone are kept in 8 bytes meanwhile.
#[derive(Drop)]
pub struct BarePieces {
    parts: Parts,
    owner: Vec<Id>,
    zones: Vec<Zone>,
    sides: Vec<(u32, u32)>,
    wholes: Vec<Whole>,
    count: usize,
}

impl Model for BarePieces {
    ghost use Rattle.dpl_piece.specs.Cutting.{BareCut, bare_cut, AreBare};
    ghost use Rattle.dpl_piece.specs.Wholes.{LieInSome};

    ghost Value = { BareCut };

    ghost view = { λ b. bare_cut b.parts b.owner.items b.zones.items };

    ghost invariant = { λ b. AreBare (bare_cut b.parts b.owner.items b.zones.items) b.sides.items × LieInSome b.count b.parts b.owner.items b.zones.items b.wholes.items };
}

/// The same pairs as ids.
fn as_ids(alloc: Global, sides: &[(u32, u32)]) -> Result<Vec<(Id, Id)>, AllocError>
    ensures { IfOk result (λ v. v.items ≡ sides.now) }
{
    let mut ids = Vec::with_capacity(alloc, sides.len())?;
    for &(first, second) in sides {
        ids.push((first as Id, second as Id))?;
    }
    Ok(ids)
}

impl BarePieces {
    /// Pieces with their owners, the zones with the pieces on their two sides, and those of so many features that were cut.
    pub(crate) fn of(
        parts: Parts,
        owner: Vec<Id>,
        zones: Vec<Zone>,
        sides: Vec<(u32, u32)>,
        wholes: Vec<Whole>,
        count: usize,
    ) -> BarePieces
        requires bare { AreBare (bare_cut parts owner.items zones.items) sides.items }
        requires wholes { LieInSome count parts owner.items zones.items wholes.items }
        ensures { result ≡ bare_cut parts owner.items zones.items }
    {
        BarePieces {
            parts,
            owner,
            zones,
            sides,
            wholes,
            count,
        }
    }

    /// The squares of each piece.
    pub fn parts(&self) -> &Parts
        ensures { result.now ≡ self.now.parts }
    {
        &self.parts
    }

    /// The number of the feature that each piece lies in.
    pub fn owner(&self) -> &[Id]
        ensures value { result.now ≡ self.now.owners }
        ensures each { length self.now.owners ≡ length self.now.parts }
    {
        self.owner.as_slice()
    }

    /// The same, with the pieces on the two sides of each zone.
    pub fn completed(self, alloc: Global) -> Result<Pieces, AllocError>
        ensures { IfOk result (Completes self) }
    {
        let BarePieces {
            parts,
            owner,
            zones,
            sides,
            wholes,
            count,
        } = self;
        let sides = as_ids(alloc, &sides)?;
        Ok(Pieces::of(parts, owner, zones, sides, wholes, count))
    }
}
