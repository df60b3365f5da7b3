//! Where the pieces of a cycle are near.
ghost use Rattle.std.specs.Prelude.{◌≤◌, ◌<◌, ◌%◌, ◌+◌, ℕ, IfOk, length, slice_index};
ghost use Rattle.std.specs.List.{AllByRecursion};
ghost use Rattle.dpl_spec_split.specs.Squares.{AreNear};
ghost use Rattle.dpl_spec_split.specs.Zones.{part_at};
ghost use Rattle.dpl_cert.specs.Grammar.{IsNear};
ghost use Rattle.dpl_nearest.specs.Nearest.{IsNearestPair};
ghost use Rattle.dpl_law_verdict.specs.Own.{ShowsPair};
ghost use Rattle.dpl_answer.specs.Flat.{AreNearest};

use dpl_base::{Id, Spacing};
use dpl_cert::NearLine;
use dpl_nearest::nearest;
use dpl_piece::Pieces;
use dpl_slabs::Slabs;
use std::alloc::{AllocError, Global};

/// The least pair of near squares of pieces `i` and `j`.
pub(crate) fn near_line(
    alloc: Global,
    parts: &[Slabs],
    i: usize,
    j: usize,
    spacing: Spacing,
) -> Result<NearLine, AllocError>
    requires corner { spacing.corner ≤ spacing.rule }
    requires first { i < length parts.now }
    requires second { j < length parts.now }
    requires near { AreNear spacing (part_at parts.now i) (part_at parts.now j) }
    ensures nearest { IfOk result (λ line. ShowsPair (IsNearestPair spacing (part_at parts.now i) (part_at parts.now j)) line) }
    ensures within { IfOk result (λ line. IsNear line) }
{
    let Some((from, to)) = nearest(alloc, parts[i].rects(), parts[j].rects(), spacing)? else {
        unreachable!()
    };
    Ok(NearLine::Pair { from, to })
}

/// For each piece of a cycle the least pair of near squares with the next one, the last with the first.
pub fn near_lines(
    alloc: Global,
    pieces: &Pieces,
    cycle: &[Id],
    spacing: Spacing,
) -> Result<Vec<NearLine>, AllocError>
    requires corner { spacing.corner ≤ spacing.rule }
    requires known { (k : ℕ) → k < length cycle.now → slice_index cycle.now k < length pieces.now.parts }
    requires near { (k : ℕ) → k < length cycle.now → AreNear spacing (part_at pieces.now.parts (slice_index cycle.now k)) (part_at pieces.now.parts (slice_index cycle.now ((k + 1) % length cycle.now))) }
    ensures nearest { IfOk result (λ v. AreNearest spacing pieces.now.parts cycle.now v.items) }
    ensures within { IfOk result (λ v. AllByRecursion IsNear v.items) }
{
    let parts = pieces.parts().items();
    let mut lines = Vec::new(alloc);
    for k in 0..cycle.len() {
        let piece = cycle[k];
        let next = cycle[(k + 1) % cycle.len()];
        let line = near_line(alloc, parts, piece as usize, next as usize, spacing)?;
        lines.push(line)?;
    }
    Ok(lines)
}
