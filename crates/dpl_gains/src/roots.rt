//! The components of a layer's pieces.
ghost use Rattle.std.specs.Prelude.{◌≤◌, IfOk};
ghost use Rattle.dpl_spec_verdict.specs.Gains.{AreRootsOf};

use dpl_base::{Id, Spacing};
use dpl_edges::all_conflicts;
use dpl_piece::Pieces;
use dpl_stars::{Levels, levels_of};
use std::alloc::{AllocError, Global};

/// The least piece of each piece's component, where conflicts join pieces.
pub(crate) fn roots_of(
    alloc: Global,
    pieces: &Pieces,
    spacing: Spacing,
) -> Result<Vec<Id>, AllocError>
    requires corner { spacing.corner ≤ spacing.rule }
    ensures { IfOk result (λ v. AreRootsOf spacing pieces.now.parts pieces.now.owners v.items) }
{
    let edges = all_conflicts(alloc, pieces.parts(), pieces.owner(), spacing)?;
    let count = pieces.parts().items().len() as Id;
    let levels = levels_of(alloc, count, &edges)?;
    Ok(levels.roots)
}
