//! A set of squares that is asked which rectangles have some of them.
ghost use Rattle.std.specs.Prelude.{◌↔◌, IfOk, IsTrue};
ghost use Rattle.dpl_spec_split.specs.declared.Pt.{Pt};
ghost use Rattle.dpl_spec_split.specs.Slabs.{IsSolid};
ghost use Rattle.dpl_spec_split.specs.Squares.{Covers, Has, SameSquares};

use crate::items::Items;
use crate::owners::Owners;
use crate::tree::Tree;
use dpl_base::{Rect, WideRect};
use dpl_slabs::Slabs;
use std::alloc::{AllocError, Global};
use std::marker::Model;

/// The slabs of a set in a search tree. A contract sees the rectangles, in the order of the tree.
#[derive(Drop)]
pub struct SetTree {
    tree: Tree,
}

impl Model for SetTree {
    ghost use Rattle.std.specs.Prelude.{List};
    ghost use Rattle.std.specs.List.{All};
    ghost use Rattle.dpl_spec_split.specs.declared.Rect.{Rect};
    ghost use Rattle.dpl_spec_split.specs.Slabs.{IsSolid};
    ghost use Rattle.dpl_tree.specs.Trees.{rects_of};

    ghost Value = { List Rect };

    ghost view = { λ t. rects_of t.tree };

    ghost invariant = { λ t. All IsSolid (rects_of t.tree) };
}

impl SetTree {
    /// The tree of a set.
    ///
    /// The error: out of memory.
    pub fn of(alloc: Global, set: &Slabs) -> Result<SetTree, AllocError>
        ensures { IfOk result (λ t. SameSquares (Covers t) (Covers set.now)) }
    {
        let mut items = Items::new(alloc);
        items.add(set.rects(), 0)?;
        let tree = Tree::of(alloc, items)?;
        Ok(SetTree { tree })
    }

    /// Whether the rectangle has a square of the set.
    pub fn meets(&self, r: &Rect) -> bool
        requires { IsSolid r.now }
        ensures { IsTrue result ↔ ((p : Pt) × Has r.now p × Covers self.now p) }
    {
        let window = WideRect::of(r);
        let count = self.tree.count();
        let n = self.tree.seek(0, &window, Owners::All);
        n < count
    }
}
