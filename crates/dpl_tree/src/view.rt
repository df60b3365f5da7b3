//! A search tree, as it is or transposed.
ghost use Rattle.std.specs.Prelude.{◌≡◌, ℕ, ◌<◌, ◌≤◌, length, map, slice_index_or};
ghost use Rattle.dpl_tree.specs.declared.items.Item.{Item};
ghost use Rattle.dpl_tree.specs.Trees.{ArePassed, IsMissed, transposed_item};

use crate::owners::Owners;
use crate::tree::Tree;
use dpl_base::WideRect;
use std::marker::Model;

/// A tree that is borrowed, as it is or transposed. A contract sees the items.
#[derive(Drop)]
pub struct View<'a> {
    tree: &'a Tree,
    is_transposed: bool,
}

impl<'a> Model for View<'a> {
    ghost use Rattle.std.specs.Prelude.{List};
    ghost use Rattle.dpl_tree.specs.declared.items.Item.{Item};
    ghost use Rattle.dpl_tree.specs.Trees.{seen};

    ghost Value = { List Item };

    ghost view = { λ v. seen v.is_transposed v.tree.now };

    ghost invariant = { λ v. Unit {0} };
}

impl<'a> View<'a> {
    /// The tree as it is.
    pub fn of(tree: &'a Tree) -> View<'a>
        ensures { result ≡ tree.now }
    {
        View {
            tree,
            is_transposed: false,
        }
    }

    /// The transposed tree.
    pub fn transposed(tree: &'a Tree) -> View<'a>
        ensures { result ≡ map transposed_item tree.now }
    {
        View {
            tree,
            is_transposed: true,
        }
    }

    /// How many items there are.
    pub fn count(&self) -> usize
        ensures { result ≡ length self.now }
    {
        self.tree.count()
    }

    /// The number of the first item from number `from` on that has a square in the window and an owner that is sought, or a number past all items.
    pub fn seek(&self, from: usize, window: &WideRect, owners: Owners) -> usize
        ensures from { from ≤ result }
        ensures passed { ArePassed window.now owners self.now from result }
        ensures found { (d : Item) → result < length self.now → ¬ IsMissed window.now owners (slice_index_or self.now result d) }
    {
        if self.is_transposed {
            return self.tree.seek(from, &window.transposed(), owners);
        }
        self.tree.seek(from, window, owners)
    }
}
