//! The least rectangle round some squares.
ghost use Rattle.std.specs.Prelude.{◌≡◌, ◌<◌, IsNone, IfSome, None};
ghost use Rattle.std.specs.List.{fold};
ghost use Rattle.dpl_spec_split.specs.declared.Pt.{Pt};
ghost use Rattle.dpl_slabs.specs.Parts.{AreParts, union_of};
ghost use Rattle.dpl_tile.specs.Bounds.{round_all};
ghost use Rattle.dpl_tile.specs.Tiles.{IsBounds};

use dpl_base::{Rect, round_one};
use dpl_slabs::Slabs;

/// The least rectangle round those before and these.
fn round_all(before: Option<Rect>, rects: &[Rect]) -> Option<Rect>
    ensures { result ≡ round_all before rects.now }
{
    let mut bounds = before;
    for r in rects {
        bounds = round_one(bounds, r);
    }
    bounds
}

/// The least rectangle round the squares of all parts, where they have some.
pub(crate) fn bounds(parts: &[Slabs]) -> Option<Rect>
    requires { AreParts parts.now }
    ensures none { IsNone result → (p : Pt) → union_of parts.now p → ⊥ }
    ensures some { IfSome result (λ b. IsBounds (union_of parts.now) b) }
{
    let mut bounds = None;
    for part in parts {
        bounds = round_all(bounds, part.rects());
    }
    bounds
}
