//! The slabs of a layer, each as a set by itself.
ghost use Rattle.std.specs.Prelude.{◌≡◌, IfOk};
ghost use Rattle.std.specs.List.{range_with_len};
ghost use Rattle.dpl_wide.specs.Touching.{alone};

use dpl_base::Id;
use dpl_slabs::{Parts, Slabs};
use std::alloc::{AllocError, Global};

/// Each slab of a layer as a set by itself.
pub(crate) fn slabs_alone(alloc: Global, layer: &Slabs) -> Result<Parts, AllocError>
    ensures { IfOk result (λ parts. parts ≡ alone layer.now) }
{
    let rects = layer.rects();
    let mut sets = Vec::with_capacity(alloc, rects.len())?;
    for r in rects {
        let set = Slabs::one(alloc, *r)?;
        sets.push(set)?;
    }
    Ok(Parts::of(sets))
}

/// The owners of so many sets, each of which owns itself.
pub(crate) fn own_owners(alloc: Global, count: usize) -> Result<Vec<Id>, AllocError>
    ensures { IfOk result (λ v. v.items ≡ range_with_len 0 count) }
{
    (0..count as Id).collect(alloc)
}
