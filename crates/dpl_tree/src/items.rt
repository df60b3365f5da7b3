//! Rectangles for a search tree, each with its owner.
ghost use Rattle.std.specs.Prelude.{◌≡◌, ℕ, ◌^◌, ◌<◌, ◌≤◌, ◌⊎◌, ◌↔◌, [], IfOk, IfSome, IsNone, MatchResult, length, map, slice_index_or};
ghost use Rattle.std.specs.List.{Contains};
ghost use Rattle.dpl_spec_split.specs.declared.Rect.{Rect};
ghost use Rattle.dpl_tree.specs.Trees.{HasItem};
ghost use Rattle.dpl_tree.specs.StoredItems.{item_of};

use dpl_base::Rect;
use dpl_slabs::Slabs;
use std::alloc::{AllocError, Global};
use std::marker::Model;

/// A rectangle with the number of its owner.
#[derive(Clone, Copy, Drop)]
pub struct Item {
    pub rect: Rect,
    pub owner: usize,
}

/// An item as a tree keeps it.
#[derive(Clone, Copy, Drop)]
pub(crate) struct StoredItem {
    pub(crate) rect: Rect,
    pub(crate) owner: u32,
}

impl StoredItem {
    /// The item.
    pub(crate) fn item(&self) -> Item
        ensures { result ≡ item_of self.now }
    {
        Item {
            rect: self.rect,
            owner: self.owner as usize,
        }
    }
}

/// Items for a tree, in any order. A contract sees them as a list.
#[derive(Drop)]
pub struct Items {
    items: Vec<StoredItem>,
}

impl Model for Items {
    ghost use Rattle.std.specs.Prelude.{List, map};
    ghost use Rattle.dpl_tree.specs.declared.items.Item.{Item};
    ghost use Rattle.dpl_tree.specs.StoredItems.{item_of};

    ghost Value = { List Item };

    ghost view = { λ t. map item_of t.items.items };

    ghost invariant = { λ t. Unit {0} };
}

impl Items {
    /// No items.
    pub fn new(alloc: Global) -> Items
        ensures { result ≡ [] }
    {
        Items {
            items: Vec::new(alloc),
        }
    }

    /// No items, with room for so many.
    pub fn with_capacity(alloc: Global, count: usize) -> Result<Items, AllocError>
        ensures { IfOk result (λ t. t ≡ []) }
    {
        let items = Vec::with_capacity(alloc, count)?;
        Ok(Items { items })
    }

    /// Adds rectangles of an owner. Where memory runs out, it adds none. An owner of number 2^32 or more is refused as out of memory, which so many owners with rectangles would be.
    pub fn add(&mut self, rects: &[Rect], owner: usize) -> Result<(), AllocError>
        ensures { MatchResult result (λ _. (r : Rect) (k : ℕ) → HasItem self.new r k ↔ (HasItem self.old r k ⊎ ((k ≡ owner) × Contains rects.now r))) (λ _. self.new ≡ self.old) }
    {
        let Some(owner) = stored_owner(owner) else {
            return Err(AllocError);
        };
        add_rects(&mut self.items, rects, owner)
    }

    /// The items as a tree keeps them.
    pub(crate) fn into_items(self) -> Vec<StoredItem>
        ensures { map item_of result.items ≡ self }
    {
        self.items
    }
}

/// An owner's number as a tree stores it; none where it is 2^32 or more.
fn stored_owner(owner: usize) -> Option<u32>
    ensures none { IsNone result → 2 ^ 32 ≤ owner }
    ensures some { IfSome result (λ n. n ≡ owner) }
{
    match u32::try_from(owner) {
        Ok(n) => Some(n),
        Err(_) => None,
    }
}

/// Adds rectangles of an owner. Where memory runs out, it adds none.
fn add_rects(items: &mut Vec<StoredItem>, rects: &[Rect], owner: u32) -> Result<(), AllocError>
    ensures { MatchResult result (λ _. (r : Rect) (k : ℕ) → HasItem (map item_of items.new.items) r k ↔ (HasItem (map item_of items.old.items) r k ⊎ ((k ≡ owner) × Contains rects.now r))) (λ _. map item_of items.new.items ≡ map item_of items.old.items) }
{
    items.reserve(rects.len())?;
    for rect in rects {
        items.push(StoredItem { rect: *rect, owner })?;
    }
    Ok(())
}

/// How many rectangles the parts have, up to the last value of a `usize`.
fn count_of(parts: &[Slabs]) -> usize {
    let mut count: usize = 0;
    for part in parts {
        count = count.saturating_add(part.rects().len());
    }
    count
}

/// The rectangles of all parts, each with the number of its part.
pub(crate) fn items_of(alloc: Global, parts: &[Slabs]) -> Result<Items, AllocError>
    ensures { IfOk result (λ t. (r : Rect) (k : ℕ) → HasItem t r k ↔ ((k < length parts.now) × Contains (slice_index_or parts.now k []) r)) }
{
    let mut items = Items::with_capacity(alloc, count_of(parts))?;
    for k in 0..parts.len() {
        items.add(parts[k].rects(), k)?;
    }
    Ok(items)
}
