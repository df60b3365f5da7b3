//! The walk over what structures draw and place, with a stack of its own.
#![tactic(auto)]

ghost use Rattle.std.specs.Prelude.{◌^◌, ◌<◌, ◌≤◌, length, IfOk};
ghost use Rattle.std.specs.List.{All};
ghost use Rattle.dpl_walk.specs.Kept.{AreWalked};
ghost use Rattle.dpl_walk.specs.Walk.{AreDeep, AreKnown};

use crate::walk::walk_from;
use crate::ways::pass_by;
use std::alloc::{AllocError, Global};

mod cells;
mod copies;
mod gathered;
mod least;
mod walk;
mod ways;

pub use crate::cells::{Cell, Copies, Outline};
pub use crate::gathered::Gathered;
pub use crate::least::{earlier, note};

/// Rectangles and loops that cover what the loops in range cover that the structure `top` shows, itself and through all copies below it, and the
/// least offset of an element that is placed too far out. Structures that draw nothing and place one copy are passed by where `order` lists them,
/// and each structure that it lists stands behind all that it places. With another order the same is covered, in more time.
pub fn gather(
    alloc: Global,
    mut cells: Vec<Cell>,
    order: &[u32],
    top: u32,
) -> Result<Gathered, AllocError>
    requires known { AreKnown (2 ^ 31) cells.items }
    requires deep { AreDeep cells.items }
    requires few { length cells.items ≤ 2 ^ 26 }
    requires order { All (λ k. k < length cells.items) order.now }
    requires top { top < length cells.items }
    ensures { IfOk result (λ g. AreWalked cells.items top g) }
{
    pass_by(alloc, &mut cells, order)?;
    walk_from(alloc, cells.as_slice(), top)
}
