//! The numbers below a count, and numbers in 32 bits.
ghost use Rattle.std.specs.Prelude.{◌≡◌, ◌≤◌, ◌^◌, IfOk, OnErr};
ghost use Rattle.std.specs.List.{range_with_len};

use crate::Id;
use std::alloc::{AllocError, Global};

/// The numbers below `count`, in order.
pub fn numbers_below(alloc: Global, count: usize) -> Result<Vec<usize>, AllocError>
    ensures { IfOk result (λ v. v.items ≡ range_with_len 0 count) }
{
    (0..count).collect(alloc)
}

/// A number in 32 bits. One of 2^32 or more, and no other, is refused as out of memory, which so many pieces, features
/// or zones would be.
pub fn short_id(number: Id) -> Result<u32, AllocError>
    ensures same { IfOk result (λ n. n ≡ number) }
    ensures refused { OnErr result (2 ^ 32 ≤ number) }
{
    match u32::try_from(number) {
        Ok(n) => Ok(n),
        Err(_) => Err(AllocError),
    }
}
