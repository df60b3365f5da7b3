//! Loops of four corners.
ghost use Rattle.std.specs.Prelude.{◌≡◌, ◌↔◌, IfSome, IsTrue};
ghost use Rattle.dpl_corners.specs.Corners.{IsUpright, IsThrough, loop_round};

use dpl_base::Pt;

/// A loop through the corners of a rectangle, which may have no columns or no rows, by two of them.
#[derive(Clone, Copy, Drop)]
pub struct Bar {
    /// Where the loop begins.
    pub corner: Pt,
    /// The corner that isn't beside the first.
    pub opposite: Pt,
    /// Whether the loop goes up or down first, and else to a side.
    pub upright: bool,
    /// Whether the first corner stands once more at the end.
    pub closed: bool,
}

/// Whether the two are one point.
fn is_same(p: &Pt, q: &Pt) -> bool
    ensures { IsTrue result ↔ (p.now ≡ q.now) }
{
    p.x == q.x && p.y == q.y
}

/// Whether the points are corners of a rectangle, the second above or below the first.
fn is_upright(p: &Pt, q: &Pt, r: &Pt, t: &Pt) -> bool
    ensures { IsTrue result → IsUpright p.now q.now r.now t.now }
{
    if p.x != q.x {
        return false;
    }
    if q.y != r.y {
        return false;
    }
    if r.x != t.x {
        return false;
    }
    t.y == p.y
}

/// The bar whose corners are the four points, each beside the one before it.
fn bar_through(p: &Pt, q: &Pt, r: &Pt, t: &Pt, closed: bool) -> Option<Bar>
    ensures { IfSome result (λ b. IsThrough p.now q.now r.now t.now closed b) }
{
    if is_upright(p, q, r, t) {
        return Some(Bar {
            corner: *p,
            opposite: *r,
            upright: true,
            closed,
        });
    }
    if is_upright(q, r, t, p) {
        return Some(Bar {
            corner: *p,
            opposite: *r,
            upright: false,
            closed,
        });
    }
    None
}

/// The bar whose corners are the points, each beside the one before it. The last may be the first again.
#[inline(always)]
pub(crate) fn bar_of(points: &[Pt]) -> Option<Bar>
    ensures { IfSome result (λ b. loop_round b ≡ points.now) }
{
    match points {
        [p, q, r, t] => bar_through(p, q, r, t, false),
        [p, q, r, t, last] if is_same(p, last) => bar_through(p, q, r, t, true),
        _ => None,
    }
}
