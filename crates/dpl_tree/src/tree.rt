//! Searches for the rectangles in a window.
ghost use Rattle.std.specs.Prelude.{◌≡◌, ℕ, ◌<◌, ◌≤◌, ◌↔◌, IfOk, length, slice_index_or};
ghost use Rattle.dpl_spec_split.specs.declared.Rect.{Rect};
ghost use Rattle.dpl_tree.specs.declared.items.Item.{Item};
ghost use Rattle.dpl_tree.specs.Trees.{AreItemsOf, ArePassed, HasItem, IsMissed};

use crate::arrange::arrange;
use crate::blocks::{Block, levels_over};
use crate::items::{Item, Items, StoredItem, items_of};
use crate::owners::Owners;
use crate::search::seek_in;
use dpl_base::{Listed, WideRect};
use dpl_slabs::Slabs;
use std::alloc::{AllocError, Global};
use std::marker::Model;

/// A search tree over rectangles with owners. A contract sees its items, in an order of its own.
#[derive(Drop)]
pub struct Tree {
    items: Vec<StoredItem>,
    levels: Vec<Listed<Block>>,
}

impl Model for Tree {
    ghost use Rattle.std.specs.Prelude.{List, map};
    ghost use Rattle.dpl_tree.specs.declared.items.Item.{Item};
    ghost use Rattle.dpl_tree.specs.Blocks.{IsIndex};
    ghost use Rattle.dpl_tree.specs.StoredItems.{item_of};

    ghost Value = { List Item };

    ghost view = { λ t. map item_of t.items.items };

    ghost invariant = { λ t. IsIndex (map item_of t.items.items) t.levels.items };
}

impl Tree {
    /// The tree of items, in any order.
    pub fn of(alloc: Global, items: Items) -> Result<Tree, AllocError>
        ensures { IfOk result (λ t. (r : Rect) (k : ℕ) → HasItem t r k ↔ HasItem items r k) }
    {
        let mut items = items.into_items();
        arrange(&mut items);
        let levels = levels_over(alloc, &items)?;
        Ok(Tree { items, levels })
    }

    /// The tree of the slabs of all sets, each with the number of its set.
    pub fn of_parts(alloc: Global, parts: &[Slabs]) -> Result<Tree, AllocError>
        ensures { IfOk result (λ t. AreItemsOf parts.now t) }
    {
        let items = items_of(alloc, parts)?;
        Tree::of(alloc, items)
    }

    /// How many items there are.
    pub fn count(&self) -> usize
        ensures { result ≡ length self.now }
    {
        self.items.len()
    }

    /// An item, by its number.
    pub fn item(&self, i: usize) -> Item
        requires { i < length self.now }
        ensures { (d : Item) → result ≡ slice_index_or self.now i d }
    {
        self.items[i].item()
    }

    /// The number of the first item from number `from` on that has a square in the window and an owner that is sought, or a number past all items.
    pub fn seek(&self, from: usize, window: &WideRect, owners: Owners) -> usize
        ensures from { from ≤ result }
        ensures passed { ArePassed window.now owners self.now from result }
        ensures found { (d : Item) → result < length self.now → ¬ IsMissed window.now owners (slice_index_or self.now result d) }
    {
        seek_in(
            self.items.as_slice(),
            self.levels.as_slice(),
            from,
            window,
            owners,
        )
    }
}
