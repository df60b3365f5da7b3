//! The least square of rectangles that is near others.
ghost use Rattle.std.specs.Prelude.{◌≤◌, ◌≡◌, ℕ, ◌⊎◌, ◌↔◌, IfOk};
ghost use Rattle.std.specs.List.{All, Contains};
ghost use Rattle.dpl_spec_split.specs.Loops.{AreRectsWithin, IsRectWithin, farthest};
ghost use Rattle.dpl_spec_split.specs.Slabs.{IsSolid};
ghost use Rattle.dpl_spec_split.specs.Squares.{Covers, Has, Precedes};
ghost use Rattle.dpl_spec_split.specs.declared.Rect.{Rect};
ghost use Rattle.dpl_tree.specs.Trees.{HasItem};
ghost use Rattle.dpl_tree.specs.declared.owners.Owners.TheVariants.{All as Everyone};
ghost use Rattle.dpl_nearest.specs.Search.{AreSolidItems, IsLeastNear, ItemCovers, IsLowered, IsImproved};

use crate::few::least_of_few;
use crate::rects::least_of;
use dpl_base::{Pt, Rect, Spacing};
use dpl_tree::{Items, Owners, Tree};
use std::alloc::{AllocError, Global};

/// How many pairs of rectangles are looked at one by one. Where there are more, a search tree is made.
const FEW_PAIRS: usize = 64;

/// The first of two squares, by row and then by column.
pub(crate) fn lesser(p: Pt, q: Pt) -> Pt
    ensures { ((result ≡ p) × (Precedes q p → ⊥)) ⊎ ((result ≡ q) × Precedes q p) }
{
    if q.y < p.y {
        return q;
    }
    if p.y < q.y {
        return p;
    }
    if q.x < p.x {
        return q;
    }
    p
}

/// The first of `p` and the squares of `r` that are near the others.
fn lowered(p: Pt, r: &Rect, others: &Tree, owners: Owners, spacing: Spacing) -> Pt
    requires corner { spacing.corner ≤ spacing.rule }
    requires solid { IsSolid r.now }
    requires within { IsRectWithin farthest r.now }
    requires others { AreSolidItems others.now }
    ensures { IsLowered spacing (Has r.now) (ItemCovers owners others.now) p result }
{
    if p.y < r.y0 as i64 {
        return p;
    }
    match least_of(r, others, owners, spacing) {
        None => p,
        Some(q) => lesser(p, q),
    }
}

/// The first of `best`, if there is one, and the squares of `r` that are near, by `spacing` in database units, a rectangle of the owners that are sought.
pub fn improved(
    best: Option<Pt>,
    r: &Rect,
    others: &Tree,
    owners: Owners,
    spacing: Spacing,
) -> Option<Pt>
    requires corner { spacing.corner ≤ spacing.rule }
    requires solid { IsSolid r.now }
    requires within { IsRectWithin farthest r.now }
    requires others { AreSolidItems others.now }
    ensures { IsImproved spacing (Has r.now) (ItemCovers owners others.now) best result }
{
    match best {
        None => least_of(r, others, owners, spacing),
        Some(p) => Some(lowered(p, r, others, owners, spacing)),
    }
}

/// The least square of rectangles that is near the others.
fn least_in_tree(rects: &[Rect], others: &Tree, spacing: Spacing) -> Option<Pt>
    requires corner { spacing.corner ≤ spacing.rule }
    requires solid { All IsSolid rects.now }
    requires within { AreRectsWithin farthest rects.now }
    requires others { AreSolidItems others.now }
    ensures { IsLeastNear spacing (Covers rects.now) (ItemCovers Everyone others.now) result }
{
    let mut best = None;
    for r in rects {
        best = improved(best, r, others, Owners::All, spacing);
    }
    best
}

/// A search tree of rectangles, all of owner 0.
pub fn tree_of(alloc: Global, rects: &[Rect]) -> Result<Tree, AllocError>
    ensures { IfOk result (λ t. (r : Rect) (k : ℕ) → HasItem t r k ↔ ((k ≡ 0) × Contains rects.now r)) }
{
    let mut items = Items::new(alloc);
    items.add(rects, 0)?;
    Tree::of(alloc, items)
}

/// The least square of rectangles that is near the others.
pub(crate) fn least_near(
    alloc: Global,
    rects: &[Rect],
    others: &[Rect],
    spacing: Spacing,
) -> Result<Option<Pt>, AllocError>
    requires corner { spacing.corner ≤ spacing.rule }
    requires solid { All IsSolid rects.now }
    requires within { AreRectsWithin farthest rects.now }
    requires others_solid { All IsSolid others.now }
    ensures { IfOk result (λ found. IsLeastNear spacing (Covers rects.now) (Covers others.now) found) }
{
    if rects.len().saturating_mul(others.len()) <= FEW_PAIRS {
        return Ok(least_of_few(rects, others, spacing));
    }
    let tree = tree_of(alloc, others)?;
    Ok(least_in_tree(rects, &tree, spacing))
}
