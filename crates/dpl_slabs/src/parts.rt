//! Disjoint sets of squares.
ghost use Rattle.std.specs.Prelude.{◌≡◌};
ghost use Rattle.dpl_slabs.specs.Parts.{AreParts};

use crate::slabs::Slabs;
use std::alloc::AllocError;
use std::marker::Model;

/// A list of sets of squares, no two of which have a square in common. A contract sees the canonical slabs of each.
#[derive(Drop)]
pub struct Parts {
    sets: Vec<Slabs>,
}

impl Model for Parts {
    ghost use Rattle.std.specs.Prelude.{List};
    ghost use Rattle.dpl_spec_split.specs.declared.Rect.{Rect};
    ghost use Rattle.dpl_slabs.specs.Parts.{AreParts};

    ghost Value = { List (List Rect) };

    ghost view = { λ p. p.sets.items };

    ghost invariant = { λ p. AreParts p.sets.items };
}

/// A copy has the same sets.
impl Clone for Parts {
    ghost is_clone = { λ parts copy. copy ≡ parts };

    fn clone(&self) -> Result<Parts, AllocError> {
        Ok(Parts {
            sets: self.sets.clone()?,
        })
    }
}

impl Parts {
    /// The sets of a list.
    pub fn of(sets: Vec<Slabs>) -> Parts
        requires { AreParts sets.items }
        ensures { result ≡ sets.items }
    {
        Parts { sets }
    }

    /// The sets.
    pub fn items(&self) -> &[Slabs]
        ensures value { result.now ≡ self.now }
        ensures parts { AreParts self.now }
    {
        self.sets.as_slice()
    }

    /// The sets, without taking memory.
    pub fn into_vec(self) -> Vec<Slabs>
        ensures value { result.items ≡ self }
        ensures parts { AreParts self }
    {
        self.sets
    }
}
