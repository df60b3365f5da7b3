//! The pieces that zones leave of a bar, without a sweep.
ghost use Rattle.std.specs.Prelude.{◌∷◌, [], IsTrue, IfOk, IfSome};
ghost use Rattle.dpl_spec_split.specs.Slabs.{IsSolid};
ghost use Rattle.dpl_spec_split.specs.Loops.{farthest, AreRectsWithin, IsRectWithin};
ghost use Rattle.dpl_piece.specs.Bars.{AreHalves, CutsAcross, CutsAlong};
ghost use Rattle.dpl_piece.specs.Pieces.{AreBroken};

use dpl_base::Rect;
use dpl_slabs::Slabs;
use std::alloc::{AllocError, Global};

/// What a hole leaves of a bar on its two sides.
#[derive(Clone, Copy, Drop)]
struct Halves {
    before: Rect,
    after: Rect,
}

/// Whether the hole has all rows of the bar, and columns between others of the bar.
fn cuts_across(bar: &Rect, hole: &Rect) -> bool
    ensures { IsTrue result → CutsAcross bar.now hole.now }
{
    if hole.y0 != bar.y0 {
        return false;
    }
    if hole.y1 != bar.y1 {
        return false;
    }
    if hole.x0 <= bar.x0 {
        return false;
    }
    if hole.x1 <= hole.x0 {
        return false;
    }
    hole.x1 < bar.x1
}

/// Whether the hole has all columns of the bar, and rows between others of the bar.
fn cuts_along(bar: &Rect, hole: &Rect) -> bool
    ensures { IsTrue result → CutsAlong bar.now hole.now }
{
    if hole.x0 != bar.x0 {
        return false;
    }
    if hole.x1 != bar.x1 {
        return false;
    }
    if hole.y0 <= bar.y0 {
        return false;
    }
    if hole.y1 <= hole.y0 {
        return false;
    }
    hole.y1 < bar.y1
}

/// The two parts into which a hole breaks a bar. None where it doesn't cut the bar right across.
fn broken_in_two(bar: &Rect, hole: &Rect) -> Option<Halves>
    ensures { IfSome result (λ h. AreHalves bar.now hole.now h.before h.after) }
{
    if cuts_across(bar, hole) {
        return Some(Halves {
            before: Rect {
                x1: hole.x0,
                ..*bar
            },
            after: Rect {
                x0: hole.x1,
                ..*bar
            },
        });
    }
    if cuts_along(bar, hole) {
        return Some(Halves {
            before: Rect {
                y1: hole.y0,
                ..*bar
            },
            after: Rect {
                y0: hole.y1,
                ..*bar
            },
        });
    }
    None
}

/// The parts into which holes break a bar, where each cuts right across what those before it leave on the right, or above. None where one doesn't.
pub fn bar_parts(
    alloc: Global,
    bar: &Rect,
    holes: &[Rect],
) -> Result<Option<Vec<Slabs>>, AllocError>
    requires solid { IsSolid bar.now }
    requires within { IsRectWithin farthest bar.now }
    requires holes { AreRectsWithin farthest holes.now }
    ensures { IfOk result (λ found. IfSome found (λ v. AreBroken (bar.now ∷ []) holes.now v.items)) }
{
    let mut parts = Vec::with_capacity(alloc, holes.len().saturating_add(1))?;
    let mut rest = *bar;
    for hole in holes {
        let Some(next) = broken_in_two(&rest, hole) else {
            return Ok(None);
        };
        let part = Slabs::one(alloc, next.before)?;
        parts.push(part)?;
        rest = next.after;
    }
    let part = Slabs::one(alloc, rest)?;
    parts.push(part)?;
    Ok(Some(parts))
}
