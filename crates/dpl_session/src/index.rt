//! Pieces, with a search tree over their slabs.
ghost use Rattle.std.specs.Prelude.{◌≡◌, ◌<◌, ◌↔◌, IfOk, IsTrue, List, length};
ghost use Rattle.dpl_spec_split.specs.declared.Pt.{Pt};
ghost use Rattle.dpl_spec_split.specs.Loops.{farthest, AreRectsWithin};
ghost use Rattle.dpl_spec_split.specs.Slabs.{AreSlabsOf, IsSolid};
ghost use Rattle.dpl_spec_split.specs.Squares.{Covers, Has, IsSolidWithin};
ghost use Rattle.dpl_spec_split.specs.Zones.{part_at};
ghost use Rattle.dpl_slabs.specs.Parts.{AreParts, union_of};
ghost use Rattle.dpl_tree.specs.Trees.{AreItemsOf};
ghost use Rattle.dpl_spec_split.specs.declared.Rect.{Rect};
ghost use Rattle.dpl_edges.specs.Meetings.{HaveCommon, IsWhole};
ghost use Rattle.dpl_session.specs.Tiles.{IsOccupied};
ghost use Rattle.dpl_session.specs.Windows.{within};

use crate::clip::clipped;
use dpl_base::{FARTHEST, Id, Rect, WideRect};
use dpl_piece::Pieces;
use dpl_slabs::Slabs;
use dpl_tree::{Owners, Tree};
use std::alloc::{AllocError, Global};
use std::marker::Model;

/// The pieces of a layer, with a search tree over their slabs. A contract sees the pieces.
#[derive(Drop)]
pub(crate) struct Index<'a> {
    pieces: &'a Pieces,
    tree: Tree,
}

impl<'a> Model for Index<'a> {
    ghost use Rattle.dpl_piece.specs.Cutting.{CutPieces};
    ghost use Rattle.dpl_slabs.specs.Parts.{AreParts};
    ghost use Rattle.dpl_tree.specs.Trees.{AreItemsOf};

    ghost Value = { CutPieces };

    ghost view = { λ x. x.pieces.now };

    ghost invariant = { λ x. AreItemsOf x.pieces.now.parts x.tree × AreParts x.pieces.now.parts };
}

/// The squares that a layer may have.
fn everywhere() -> Rect
    ensures whole { IsWhole result }
    ensures solid { IsSolidWithin farthest result }
{
    let far = FARTHEST as i32;
    Rect {
        x0: -far,
        y0: -far,
        x1: far,
        y1: far,
    }
}

/// The rectangles of a tree with a square in a window, in no order.
fn found_in(alloc: Global, tree: &Tree, window: &WideRect) -> Result<Vec<Rect>, AllocError>
    ensures within { (parts : List (List Rect)) → AreParts parts → AreItemsOf parts tree.now → IfOk result (λ v. AreRectsWithin farthest v.items) }
    ensures squares { (parts : List (List Rect)) → AreItemsOf parts tree.now → IfOk result (λ v. (p : Pt) → within window.now (Covers v.items) p ↔ within window.now (union_of parts) p) }
{
    let mut found = Vec::new(alloc);
    let mut n = tree.seek(0, window, Owners::All);
    while n < tree.count() {
        found.push(tree.item(n).rect)?;
        n = tree.seek(n + 1, window, Owners::All);
    }
    Ok(found)
}

impl<'a> Index<'a> {
    /// The index of these pieces.
    ///
    /// The error: out of memory.
    pub(crate) fn of(alloc: Global, pieces: &'a Pieces) -> Result<Index<'a>, AllocError>
        ensures { IfOk result (λ x. x ≡ pieces.now) }
    {
        let tree = Tree::of_parts(alloc, pieces.parts().items())?;
        Ok(Index { pieces, tree })
    }

    /// The number of each piece's feature.
    pub(crate) fn owners(&self) -> &'a [Id]
        ensures value { result.now ≡ self.now.owners }
        ensures each { length self.now.owners ≡ length self.now.parts }
        ensures parts { AreParts self.now.parts }
    {
        self.pieces.owner()
    }

    /// Whether some piece has a square in the cell.
    pub(crate) fn meets(&self, cell: &WideRect) -> bool
        requires { IsSolid cell.now }
        ensures { IsTrue result ↔ IsOccupied (union_of self.now.parts) cell.now }
    {
        let count = self.tree.count();
        let n = self.tree.seek(0, cell, Owners::All);
        n < count
    }

    /// The squares of pieces in a window, which has some square that a layer may have.
    ///
    /// The error: out of memory.
    pub(crate) fn squares_in(&self, alloc: Global, window: &WideRect) -> Result<Slabs, AllocError>
        requires solid { IsSolid window.now }
        requires common { (whole : Rect) → IsWhole whole → HaveCommon window.now whole }
        ensures { IfOk result (λ s. AreSlabsOf (within window.now (union_of self.now.parts)) s) }
    {
        let found = found_in(alloc, &self.tree, window)?;
        let all = Slabs::of_rects(alloc, found)?;
        let whole = everywhere();
        let clip = clipped(&whole, window);
        let frame = Slabs::one(alloc, clip)?;
        all.meet(alloc, &frame)
    }

    /// The number of a piece with a square in the rectangle, which has one.
    pub(crate) fn piece_in(&self, r: &Rect) -> Id
        requires solid { IsSolid r.now }
        requires some { IsOccupied (union_of self.now.parts) r.now }
        ensures known { result < length self.now.parts }
        ensures common { IsOccupied (part_at self.now.parts result) r.now }
    {
        let window = WideRect::of(r);
        let n = self.tree.seek(0, &window, Owners::All);
        let item = self.tree.item(n);
        item.owner as Id
    }
}
