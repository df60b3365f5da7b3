//! Searches a tree for a rectangle that has a square in a window.
ghost use Rattle.std.specs.Prelude.{◌≤◌, ◌^◌, ◌↔◌, IsTrue, IsNone, IfSome, unsigned_abs};
ghost use Rattle.dpl_spec_split.specs.Slabs.{IsSolid};
ghost use Rattle.dpl_spec_split.specs.Squares.{Has};
ghost use Rattle.dpl_tree.specs.declared.owners.Owners.TheVariants.{All as Everyone, Only};
ghost use Rattle.dpl_nearest.specs.Search.{AreSolidItems, ItemCovers};
ghost use Rattle.dpl_spec_verdict.specs.Order.{HasSquare};

use dpl_base::{Pt, WideRect};
use dpl_nearest::window_at;
use dpl_tree::{Owners, Tree};

/// The owner of a rectangle that has a square in the window, if there is one.
pub(crate) fn owner_in(tree: &Tree, window: &WideRect) -> Option<usize>
    requires window { IsSolid window.now }
    requires items { AreSolidItems tree.now }
    ensures none { IsNone result → ¬ HasSquare (λ p. Has window.now p × ItemCovers Everyone tree.now p) }
    ensures some { IfSome result (λ k. HasSquare (λ p. Has window.now p × ItemCovers (Only k) tree.now p)) }
{
    let n = tree.seek(0, window, Owners::All);
    if n < tree.count() {
        return Some(tree.item(n).owner);
    }
    None
}

/// The owner of a rectangle that has the square, if there is one.
pub(crate) fn owner_at(tree: &Tree, p: Pt) -> Option<usize>
    requires x { unsigned_abs p.x ≤ 2 ^ 61 }
    requires y { unsigned_abs p.y ≤ 2 ^ 61 }
    requires items { AreSolidItems tree.now }
    ensures none { IsNone result → ¬ ItemCovers Everyone tree.now p }
    ensures some { IfSome result (λ k. ItemCovers (Only k) tree.now p) }
{
    let window = window_at(p);
    owner_in(tree, &window)
}

/// Whether some rectangle has a square in the window.
pub(crate) fn is_met(tree: &Tree, window: &WideRect) -> bool
    requires window { IsSolid window.now }
    requires items { AreSolidItems tree.now }
    ensures { IsTrue result ↔ HasSquare (λ p. Has window.now p × ItemCovers Everyone tree.now p) }
{
    match owner_in(tree, window) {
        Some(_) => true,
        None => false,
    }
}

/// Whether some rectangle has the square.
pub(crate) fn has(tree: &Tree, p: Pt) -> bool
    requires x { unsigned_abs p.x ≤ 2 ^ 61 }
    requires y { unsigned_abs p.y ≤ 2 ^ 61 }
    requires items { AreSolidItems tree.now }
    ensures { IsTrue result ↔ ItemCovers Everyone tree.now p }
{
    match owner_at(tree, p) {
        Some(_) => true,
        None => false,
    }
}
