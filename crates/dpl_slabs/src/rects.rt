//! The rectangles of a set. One alone may stand in place, without memory of its own.
ghost use Rattle.std.specs.Prelude.{◌≡◌, ◌++◌, ◌∷◌, [], IsErr, IfOk, OnOk};
ghost use Rattle.dpl_slabs.specs.Rects.{rects_in};

use dpl_base::Rect;
use std::alloc::{AllocError, Global};
use std::slice;

/// For how many rectangles there is room where a second one comes.
const FEW: usize = 2;

/// Rectangles in order.
#[derive(Drop)]
pub(crate) enum Rects {
    /// One, in place, and the allocator for more.
    One(Rect, Global),
    /// Any number of them.
    Many(Vec<Rect>),
}

impl Rects {
    /// The rectangles.
    pub(crate) fn as_slice(&self) -> &[Rect]
        ensures { result.now ≡ rects_in self.now }
    {
        match self {
            Rects::One(rect, _) => slice::from_ref(rect),
            Rects::Many(rects) => rects.as_slice(),
        }
    }

    /// A copy.
    pub(crate) fn copied(&self) -> Result<Rects, AllocError>
        ensures { IfOk result (λ copy. rects_in copy ≡ rects_in self.now) }
    {
        match self {
            Rects::One(rect, alloc) => Ok(Rects::One(*rect, *alloc)),
            Rects::Many(rects) => Ok(Rects::Many(rects.clone()?)),
        }
    }

    /// Adds a rectangle behind the others.
    pub(crate) fn push(&mut self, r: Rect) -> Result<(), AllocError>
        ensures failed { IsErr result → rects_in self.new ≡ rects_in self.old }
        ensures pushed { OnOk result (rects_in self.new ≡ rects_in self.old ++ r ∷ []) }
    {
        match self {
            Rects::One(rect, alloc) => {
                let mut rects = Vec::with_capacity(*alloc, FEW)?;
                rects.push(*rect)?;
                rects.push(r)?;
                *self = Rects::Many(rects);
                Ok(())
            }
            Rects::Many(rects) => {
                rects.push(r)?;
                Ok(())
            }
        }
    }
}
