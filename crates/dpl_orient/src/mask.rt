//! The two masks, and a colour for each piece.
ghost use Rattle.std.specs.Prelude.{◌≡◌, ◌<◌, IfOk, map, true, false};
ghost use Rattle.dpl_orient.specs.Masks.{is_second};

use std::alloc::{AllocError, Global};
use std::marker::Model;

/// One of the two masks.
#[derive(Clone, Copy, Debug, Drop, PartialEq, Eq)]
pub enum Mask {
    A,
    B,
}

impl Mask {
    ghost use Rattle.dpl_orient.specs.Masks.{is_second};

    /// The mask of a letter: `false` for mask A.
    pub fn of(second: bool) -> Mask
        ensures { is_second result ≡ second }
    {
        if second { Mask::B } else { Mask::A }
    }
}

/// Whether a mask is mask B.
pub fn is_second(mask: Mask) -> bool
    ensures { result ≡ is_second mask }
{
    match mask {
        Mask::A => false,
        Mask::B => true,
    }
}

/// For each of these masks whether it is mask B.
fn are_second(alloc: Global, masks: &[Mask]) -> Result<Vec<bool>, AllocError>
    ensures { IfOk result (λ v. v.items ≡ map is_second masks.now) }
{
    masks.iter().map(|mask| is_second(*mask)).collect(alloc)
}

/// The mask of each piece, by the piece's number. A contract sees a list of truth values: false is mask A, true mask B.
#[derive(Drop)]
pub struct Colours {
    masks: Vec<Mask>,
}

impl Model for Colours {
    ghost use Rattle.std.specs.Prelude.{List, Bool, map};
    ghost use Rattle.dpl_orient.specs.Masks.{is_second};

    ghost Value = { List Bool };

    ghost view = { λ c. map is_second c.masks.items };
}

impl Colours {
    /// The colours of these masks.
    pub fn of(masks: Vec<Mask>) -> Colours
        ensures { result ≡ map is_second masks.items }
    {
        Colours { masks }
    }

    /// The masks, by number of the piece.
    pub fn items(&self) -> &[Mask]
        ensures { map is_second result.now ≡ self.now }
    {
        self.masks.as_slice()
    }

    /// For each piece whether it is on mask B.
    ///
    /// The error: out of memory.
    pub fn letters(&self, alloc: Global) -> Result<Vec<bool>, AllocError>
        ensures { IfOk result (λ v. v.items ≡ self.now) }
    {
        are_second(alloc, self.items())
    }

    /// The masks, without taking memory.
    pub fn into_vec(self) -> Vec<Mask>
        ensures { map is_second result.items ≡ self }
    {
        self.masks
    }
}
