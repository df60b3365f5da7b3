//! The rectangle between two points.
ghost use Rattle.std.specs.Prelude.{◌≤◌, unsigned_abs};
ghost use Rattle.dpl_spec_split.specs.Loops.{farthest, IsPointWithin};
ghost use Rattle.dpl_corners.specs.Corners.{AreOrdered, IsSpanned};

use dpl_base::{Pt, Rect};

/// The two numbers, the lesser first.
fn ordered(x: i64, y: i64) -> (i32, i32)
    requires x { unsigned_abs x ≤ farthest }
    requires y { unsigned_abs y ≤ farthest }
    ensures { AreOrdered x y result.0 result.1 }
{
    if y < x {
        return (y as i32, x as i32);
    }
    (x as i32, y as i32)
}

/// The rectangle with these opposite corners.
pub fn spanned(p: &Pt, q: &Pt) -> Rect
    requires p { IsPointWithin farthest p.now }
    requires q { IsPointWithin farthest q.now }
    ensures { IsSpanned p.now q.now result }
{
    let (x0, x1) = ordered(p.x, q.x);
    let (y0, y1) = ordered(p.y, q.y);
    Rect { x0, y0, x1, y1 }
}
