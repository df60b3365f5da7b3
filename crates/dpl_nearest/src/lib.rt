//! The least pair of near squares of two sets.
#![tactic(auto)]

mod few;
mod least;
mod rects;

ghost use Rattle.std.specs.Prelude.{◌≤◌, IfNone, IfOk, IfSome};
ghost use Rattle.dpl_spec_split.specs.Loops.{AreRectsWithin, farthest};
ghost use Rattle.dpl_spec_split.specs.Slabs.{IsSolid};
ghost use Rattle.dpl_spec_split.specs.Squares.{AreNear, Covers};
ghost use Rattle.dpl_nearest.specs.Nearest.{IsNearestPair};
ghost use Rattle.std.specs.List.{All};

use crate::least::least_near;
pub use crate::least::{improved, tree_of};
pub use crate::rects::{unit, window_at};
use dpl_base::{Pt, Rect, Spacing};
use std::alloc::{AllocError, Global};

/// The least pair of squares of `a` and `b` that are near by `spacing`, in database units, by the first square and then by the second, if there is one. The distance of two squares is that of the closed squares, as the crow flies.
pub fn nearest(
    alloc: Global,
    a: &[Rect],
    b: &[Rect],
    spacing: Spacing,
) -> Result<Option<(Pt, Pt)>, AllocError>
    requires corner { spacing.corner ≤ spacing.rule }
    requires solid_a { All IsSolid a.now }
    requires solid_b { All IsSolid b.now }
    requires within_a { AreRectsWithin farthest a.now }
    requires within_b { AreRectsWithin farthest b.now }
    ensures none { IfOk result (λ found. IfNone found (¬ AreNear spacing (Covers a.now) (Covers b.now))) }
    ensures some { IfOk result (λ found. IfSome found (λ pair. IsNearestPair spacing (Covers a.now) (Covers b.now) pair.0 pair.1)) }
{
    let Some(from) = least_near(alloc, a, b, spacing)? else {
        return Ok(None);
    };
    let Some(square) = unit(from) else {
        unreachable!()
    };
    let Some(to) = least_near(alloc, b, &[square], spacing)? else {
        return Ok(None);
    };
    Ok(Some((from, to)))
}
