//! The least rectangle round others.
ghost use Rattle.std.specs.Prelude.{◌≡◌};
ghost use Rattle.dpl_base.specs.Bounds.{round_one};

use dpl_spec_split::Rect;

/// The least rectangle round those before and one more.
pub fn round_one(before: Option<Rect>, r: &Rect) -> Option<Rect>
    ensures { result ≡ round_one before r.now }
{
    let Some(b) = before else {
        return Some(*r);
    };
    Some(Rect {
        x0: b.x0.min(r.x0),
        y0: b.y0.min(r.y0),
        x1: b.x1.max(r.x1),
        y1: b.y1.max(r.y1),
    })
}
