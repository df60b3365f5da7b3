//! Rectangles transposed: their columns become rows, and their rows columns.
ghost use Rattle.std.specs.Prelude.{◌≡◌, IfOk, map};
ghost use Rattle.dpl_spec_split.specs.Zones.{transposed_rect};

use dpl_spec_split::Rect;
use std::alloc::{AllocError, Global};

/// The transposed rectangle.
pub fn transposed(r: &Rect) -> Rect
    ensures { result ≡ transposed_rect r.now }
{
    Rect {
        x0: r.y0,
        y0: r.x0,
        x1: r.y1,
        y1: r.x1,
    }
}

/// The transposed rectangles, in the order of the rectangles.
pub fn all_transposed(alloc: Global, rects: &[Rect]) -> Result<Vec<Rect>, AllocError>
    ensures { IfOk result (λ v. v.items ≡ map transposed_rect rects.now) }
{
    rects.iter().map(transposed).collect(alloc)
}

/// Transposes each of the rectangles where it stands.
pub fn transpose_all(rects: &mut [Rect])
    ensures { rects.new ≡ map transposed_rect rects.old }
{
    for i in 0..rects.len() {
        rects[i] = transposed(&rects[i]);
    }
}
