//! The loops of shapes.

ghost use Rattle.std.specs.Prelude.{IfOk};
ghost use Rattle.dpl_flatten.specs.Loops.{AreAdded, IsLoopOf, IsRaised};

use crate::drawing::Shapes;
use dpl_base::{Loop, Rect, WideRect};
use dpl_shapes::loop_round;
use std::alloc::{AllocError, Global};

/// The rectangle, with its upper right corner raised to where it isn't below or left of the other. It has the same squares.
fn raised(rect: &Rect) -> Rect
    ensures { IsRaised rect.now result }
{
    Rect {
        x0: rect.x0,
        y0: rect.y0,
        x1: rect.x0.max(rect.x1),
        y1: rect.y0.max(rect.y1),
    }
}

/// The loop round a rectangle. Where this has no squares, the loop covers none.
fn loop_of(alloc: Global, rect: &Rect) -> Result<Loop, AllocError>
    ensures { IfOk result (IsLoopOf rect.now) }
{
    loop_round(alloc, WideRect::of(&raised(rect)))
}

/// The loops of shapes, those of rectangles behind the others.
pub(crate) fn loops_of(alloc: Global, shapes: Shapes) -> Result<Vec<Loop>, AllocError>
    ensures { IfOk result (λ v. AreAdded shapes.rects.items shapes.loops.items v.items) }
{
    let Shapes { rects, mut loops } = shapes;
    for rect in &rects {
        loops.push(loop_of(alloc, rect)?)?;
    }
    Ok(loops)
}
