//! The conflicts of one piece, found by a search tree.
ghost use Rattle.std.specs.Prelude.{◌≡◌, ℕ, ◌<◌, ◌≤◌, ◌↔◌, IfOk, IsTrue, OnOk, length};
ghost use Rattle.std.specs.List.{Contains};
ghost use Rattle.dpl_spec_split.specs.declared.Rect.{Rect};
ghost use Rattle.dpl_spec_split.specs.Loops.{farthest};
ghost use Rattle.dpl_spec_split.specs.Squares.{IsSolidWithin};
ghost use Rattle.dpl_tile.specs.Adding.{Adds};
ghost use Rattle.dpl_crowd.specs.Crowds.{AreKnown, IsFoe, IsFoeAmong, IsFoeOwner, graph_in};

use dpl_base::{Id, Rect, Spacing, near};
use dpl_slabs::Parts;
use dpl_tree::{Item, Owners, Tree, widened};
use std::alloc::{AllocError, Global};
use std::marker::Model;

/// The pieces of a layer, with a search tree over their slabs. A contract sees the pieces, the feature of each, and how far apart features stay.
#[derive(Drop)]
pub struct Crowd<'a> {
    tree: Tree,
    parts: &'a Parts,
    owners: &'a [Id],
    spacing: Spacing,
}

impl<'a> Model for Crowd<'a> {
    ghost use Rattle.std.specs.Prelude.{◌≡◌, ◌≤◌, length};
    ghost use Rattle.dpl_slabs.specs.Parts.{AreParts};
    ghost use Rattle.dpl_tree.specs.Trees.{AreItemsOf};
    ghost use Rattle.dpl_crowd.specs.Crowds.{Crowded};

    ghost Value = { Crowded };

    ghost view = { λ x. record { parts = x.parts.now; owners = x.owners.now; spacing = x.spacing } };

    ghost invariant = { λ x. AreItemsOf x.parts.now x.tree × AreParts x.parts.now × (length x.owners.now ≡ length x.parts.now) × (x.spacing.corner ≤ x.spacing.rule) };
}

/// Whether an item of another feature is near a slab of piece `k`.
fn is_foe(item: &Item, owners: &[Id], k: Id, r: &Rect, spacing: Spacing) -> bool
    requires corner { spacing.corner ≤ spacing.rule }
    requires known { k < length owners.now }
    requires other { item.now.owner < length owners.now }
    requires slab { IsSolidWithin farthest r.now }
    requires solid { IsSolidWithin farthest item.now.rect }
    ensures { IsTrue result ↔ IsFoe spacing owners.now k r.now item.now }
{
    if owners[k as usize] == owners[item.owner] {
        return false;
    }
    near(r, &item.rect, spacing)
}

/// Adds the owner of an item of another feature that is near a slab of piece `k`.
fn add_item(
    found: &mut Vec<Id>,
    item: &Item,
    owners: &[Id],
    k: Id,
    r: &Rect,
    spacing: Spacing,
) -> Result<(), AllocError>
    requires corner { spacing.corner ≤ spacing.rule }
    requires known { k < length owners.now }
    requires other { item.now.owner < length owners.now }
    requires slab { IsSolidWithin farthest r.now }
    requires solid { IsSolidWithin farthest item.now.rect }
    ensures { OnOk result (Adds (IsFoeOwner spacing owners.now k r.now item.now) found.old.items found.new.items) }
{
    if !is_foe(item, owners, k, r, spacing) {
        return Ok(());
    }
    found.push(item.owner as Id)?;
    Ok(())
}

/// Adds the owners of all items of other features that are near a slab of piece `k`.
fn add_foes(
    found: &mut Vec<Id>,
    tree: &Tree,
    owners: &[Id],
    k: Id,
    r: &Rect,
    spacing: Spacing,
) -> Result<(), AllocError>
    requires corner { spacing.corner ≤ spacing.rule }
    requires known { k < length owners.now }
    requires slab { IsSolidWithin farthest r.now }
    requires items { AreKnown owners.now tree.now }
    ensures { OnOk result (Adds (IsFoeAmong spacing owners.now k r.now tree.now) found.old.items found.new.items) }
{
    let window = widened(r, spacing.rule);
    let others = Owners::But(k as usize);
    let mut n = tree.seek(0, &window, others);
    while n < tree.count() {
        add_item(found, &tree.item(n), owners, k, r, spacing)?;
        n = tree.seek(n + 1, &window, others);
    }
    Ok(())
}

/// Adds the owners of all items of other features that are near one of these slabs of piece `k`.
fn add_all_foes(
    found: &mut Vec<Id>,
    tree: &Tree,
    owners: &[Id],
    k: Id,
    slabs: &[Rect],
    spacing: Spacing,
) -> Result<(), AllocError>
    requires corner { spacing.corner ≤ spacing.rule }
    requires known { k < length owners.now }
    requires slabs { (r : Rect) → Contains slabs.now r → IsSolidWithin farthest r }
    requires items { AreKnown owners.now tree.now }
    ensures { OnOk result (Adds (λ w. (r : Rect) × Contains slabs.now r × IsFoeAmong spacing owners.now k r tree.now w) found.old.items found.new.items) }
{
    for r in slabs {
        add_foes(found, tree, owners, k, r, spacing)?;
    }
    Ok(())
}

impl<'a> Crowd<'a> {
    /// The pieces of a layer, one owner to each, whose features are to stay `spacing` apart, in database units.
    ///
    /// The error: out of memory.
    pub fn of(
        alloc: Global,
        parts: &'a Parts,
        owners: &'a [Id],
        spacing: Spacing,
    ) -> Result<Crowd<'a>, AllocError>
        requires corner { spacing.corner ≤ spacing.rule }
        requires owners { length owners.now ≡ length parts.now }
        ensures { IfOk result (λ x. (x.parts ≡ parts.now) × (x.owners ≡ owners.now) × (x.spacing ≡ spacing)) }
    {
        let tree = Tree::of_parts(alloc, parts.items())?;
        Ok(Crowd {
            tree,
            parts,
            owners,
            spacing,
        })
    }

    /// How many pieces there are.
    pub fn count(&self) -> Id
        ensures { result ≡ length self.now.parts }
    {
        self.parts.items().len() as Id
    }

    /// The pieces that conflict with piece `k`, in no order, and some of them more than once.
    ///
    /// The error: out of memory.
    pub fn neighbours(&self, alloc: Global, k: Id) -> Result<Vec<Id>, AllocError>
        requires { k < length self.now.parts }
        ensures { IfOk result (λ v. (w : ℕ) → Contains v.items w ↔ graph_in self.now k w) }
    {
        let mut found = Vec::new(alloc);
        let slabs = self.parts.items()[k as usize].rects();
        add_all_foes(&mut found, &self.tree, self.owners, k, slabs, self.spacing)?;
        Ok(found)
    }
}
