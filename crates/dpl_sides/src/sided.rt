//! Zones with the pieces on their two sides.
ghost use Rattle.std.specs.Prelude.{◌≡◌, IfOk, length};
ghost use Rattle.dpl_sides.specs.declared.standing.Side.TheVariants.{Before, After};
ghost use Rattle.dpl_sides.specs.Sided.{numbers_in, on_side, sides_in};

use crate::standing::Side;
use std::alloc::{AllocError, Global};

/// The number of a zone, and those of the pieces on its two sides.
#[derive(Clone, Copy, Drop)]
pub struct Sided {
    pub zone: u32,
    pub first: u32,
    pub second: u32,
}

impl Sided {
    /// The number of the piece on one of its sides.
    pub fn on(&self, side: Side) -> u32
        ensures { result ≡ on_side side self.now }
    {
        match side {
            Side::Before => self.first,
            Side::After => self.second,
        }
    }
}

/// The zones of these numbers, each with the numbers of the pieces on its two sides. The error: out of memory.
pub fn with_sides(
    alloc: Global,
    own: &[u32],
    firsts: &[u32],
    seconds: &[u32],
) -> Result<Vec<Sided>, AllocError>
    requires firsts { length firsts.now ≡ length own.now }
    requires seconds { length seconds.now ≡ length own.now }
    ensures own { IfOk result (λ v. numbers_in v.items ≡ own.now) }
    ensures firsts { IfOk result (λ v. sides_in Before v.items ≡ firsts.now) }
    ensures seconds { IfOk result (λ v. sides_in After v.items ≡ seconds.now) }
{
    let mut zones = Vec::with_capacity(alloc, own.len())?;
    for i in 0..own.len() {
        zones.push(Sided {
            zone: own[i],
            first: firsts[i],
            second: seconds[i],
        })?;
    }
    Ok(zones)
}
