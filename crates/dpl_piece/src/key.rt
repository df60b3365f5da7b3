//! The key of a piece.
ghost use Rattle.std.specs.Prelude.{◌≡◌};
ghost use Rattle.dpl_piece.specs.Cutting.{first_square};

use dpl_base::Pt;
use dpl_slabs::Slabs;

/// The least square of a piece: the lower left one of its first slab. A set of no squares has the square (0, 0) for it.
pub fn key(part: &Slabs) -> Pt
    ensures { result ≡ first_square part.now }
{
    match part.rects().first() {
        Some(r) => Pt {
            x: r.x0 as i64,
            y: r.y0 as i64,
        },
        None => Pt { x: 0, y: 0 },
    }
}
