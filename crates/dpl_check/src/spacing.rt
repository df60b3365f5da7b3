//! The least pair of squares of different features on a mask that are too close.
ghost use Rattle.std.specs.Prelude.{◌≡◌, ◌≤◌, IfOk, length, unsigned_abs};
ghost use Rattle.std.specs.List.{All};
ghost use Rattle.dpl_spec_split.specs.declared.Pt.{Pt};
ghost use Rattle.dpl_spec_split.specs.Components.{AreComponents};
ghost use Rattle.dpl_spec_split.specs.Loops.{farthest, AreRectsWithin, IsRectWithin};
ghost use Rattle.dpl_spec_split.specs.Slabs.{IsSolid};
ghost use Rattle.dpl_spec_split.specs.Squares.{Covers};
ghost use Rattle.dpl_tree.specs.declared.owners.Owners.TheVariants.{All as Everyone, Only};
ghost use Rattle.dpl_nearest.specs.Search.{AreSolidItems, ItemCovers};
ghost use Rattle.dpl_spec_verdict.specs.Masks.{AreTooClose};
ghost use Rattle.dpl_check.specs.Findings.{IsLeastOf, IsLeastPairOf};
ghost use Rattle.dpl_check.specs.Owned.{AreForeign, AreOwnedItems, AreOwners, IsOwnedOnce, IsSingle, corner, foreign};

use crate::window::owner_at;
use dpl_base::{Pt, Rect, Spacing};
use dpl_nearest::{improved, unit};
use dpl_slabs::{Parts, Slabs};
use dpl_tree::{Items, Owners, Tree};
use std::alloc::{AllocError, Global};

/// The owner of the tree's rectangle that has the lower left square of `r`.
fn owner_of(r: &Rect, tree: &Tree) -> usize
    requires within { IsRectWithin farthest r.now }
    requires items { AreSolidItems tree.now }
    requires inside { ItemCovers Everyone tree.now (corner r.now) }
    ensures { ItemCovers (Only result) tree.now (corner r.now) }
{
    let p = Pt {
        x: r.x0 as i64,
        y: r.y0 as i64,
    };
    match owner_at(tree, p) {
        Some(k) => k,
        None => unreachable!(),
    }
}

/// The same for each rectangle.
fn owners_of(alloc: Global, rects: &[Rect], tree: &Tree) -> Result<Vec<usize>, AllocError>
    requires within { AreRectsWithin farthest rects.now }
    requires items { AreSolidItems tree.now }
    requires inside { All (λ r. ItemCovers Everyone tree.now (corner r)) rects.now }
    ensures { IfOk result (λ v. AreOwners tree.now rects.now v.items) }
{
    let mut owners = Vec::new(alloc);
    for r in rects {
        owners.push(owner_of(r, tree))?;
    }
    Ok(owners)
}

/// The tree of rectangles, each with its owner.
fn owned_tree(alloc: Global, rects: &[Rect], owners: &[usize]) -> Result<Tree, AllocError>
    requires each { length owners.now ≡ length rects.now }
    requires within { AreRectsWithin farthest rects.now }
    ensures { IfOk result (λ t. AreOwnedItems rects.now owners.now t) }
{
    let mut items = Items::with_capacity(alloc, rects.len())?;
    for i in 0..rects.len() {
        items.add(&[rects[i]], owners[i])?;
    }
    Tree::of(alloc, items)
}

/// The tree of one square with its owner.
fn single_tree(alloc: Global, p: Pt, owner: usize) -> Result<Tree, AllocError>
    requires x { unsigned_abs p.x ≤ farthest }
    requires y { unsigned_abs p.y ≤ farthest }
    ensures { IfOk result (λ t. IsSingle p owner t) }
{
    let Some(square) = unit(p) else {
        unreachable!()
    };
    let mut items = Items::new(alloc);
    items.add(&[square], owner)?;
    Tree::of(alloc, items)
}

/// The least square of rectangles that is near a rectangle of another owner.
fn first_foreign(rects: &[Rect], owners: &[usize], tree: &Tree, spacing: Spacing) -> Option<Pt>
    requires corner { spacing.corner ≤ spacing.rule }
    requires each { length owners.now ≡ length rects.now }
    requires solid { All IsSolid rects.now }
    requires within { AreRectsWithin farthest rects.now }
    requires items { AreSolidItems tree.now }
    ensures { IsLeastOf (foreign spacing rects.now owners.now tree.now (length rects.now)) result }
{
    let mut best = None;
    for i in 0..rects.len() {
        best = improved(best, &rects[i], tree, Owners::But(owners[i]), spacing);
    }
    best
}

/// The least pair of near squares of rectangles of two owners.
fn foreign_pair(
    alloc: Global,
    rects: &[Rect],
    owners: &[usize],
    spacing: Spacing,
) -> Result<Option<(Pt, Pt)>, AllocError>
    requires corner { spacing.corner ≤ spacing.rule }
    requires each { length owners.now ≡ length rects.now }
    requires solid { All IsSolid rects.now }
    requires within { AreRectsWithin farthest rects.now }
    requires once { IsOwnedOnce rects.now owners.now }
    ensures { IfOk result (λ found. IsLeastPairOf (AreForeign spacing rects.now owners.now) found) }
{
    let tree = owned_tree(alloc, rects, owners)?;
    let Some(first) = first_foreign(rects, owners, &tree, spacing) else {
        return Ok(None);
    };
    let Some(owner) = owner_at(&tree, first) else {
        unreachable!()
    };
    let single = single_tree(alloc, first, owner)?;
    let Some(second) = first_foreign(rects, owners, &single, spacing) else {
        unreachable!()
    };
    Ok(Some((first, second)))
}

/// The least pair of squares of different features that are on a mask and near by `spacing`.
pub(crate) fn too_close(
    alloc: Global,
    layer: &Slabs,
    features: &Parts,
    mask: &Slabs,
    spacing: Spacing,
) -> Result<Option<(Pt, Pt)>, AllocError>
    requires corner { spacing.corner ≤ spacing.rule }
    requires features { AreComponents (Covers layer.now) features.now }
    requires inside { (p : Pt) → Covers mask.now p → Covers layer.now p }
    ensures { IfOk result (λ found. IsLeastPairOf (AreTooClose spacing (Covers layer.now) (Covers mask.now)) found) }
{
    let tree = Tree::of_parts(alloc, features.items())?;
    let rects = mask.rects();
    let owners = owners_of(alloc, rects, &tree)?;
    foreign_pair(alloc, rects, &owners, spacing)
}
