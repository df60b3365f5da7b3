//! A layer edited. A list of edits comes down to the rectangles whose squares it takes away from a layer, and the set of squares that it then adds.
ghost use Rattle.std.specs.Prelude.{◌≡◌, ◌++◌, ◌↔◌, ◌⊎◌, List, [], IsTrue, IfOk, map};
ghost use Rattle.std.specs.List.{All};
ghost use Rattle.dpl_spec_split.specs.Squares.{Covers};
ghost use Rattle.dpl_spec_split.specs.Slabs.{AreSlabsOf};
ghost use Rattle.dpl_spec_split.specs.Loops.{farthest, AreRectsWithin};
ghost use Rattle.dpl_spec_edits.specs.declared.Edit.{Edit};
ghost use Rattle.dpl_spec_edits.specs.Edits.{edited, rect_of};
ghost use Rattle.dpl_spec_edits.specs.Text.{IsEdit};
ghost use Rattle.dpl_edits.specs.Changes.{IsAdd, IsRemove, IsChangeOf, with_change};

use dpl_slabs::Slabs;
use dpl_spec_edits::Edit;
use dpl_spec_split::Rect;
use std::alloc::{AllocError, Global};

/// What edits come down to: a layer loses the squares of the removed rectangles, and then has the added ones. The removed rectangles go in any order
/// and may overlap: as slabs they could be as many as the square of their number.
#[derive(Drop)]
struct Change {
    added: Slabs,
    removed: Vec<Rect>,
}

/// Whether an edit adds squares.
fn is_add(edit: &Edit) -> bool
    ensures { IsTrue result ↔ IsAdd edit.now }
{
    match edit {
        Edit::Add(_) => true,
        Edit::Remove(_) => false,
    }
}

/// Whether an edit takes squares away.
fn is_remove(edit: &Edit) -> bool
    ensures { IsTrue result ↔ IsRemove edit.now }
{
    match edit {
        Edit::Add(_) => false,
        Edit::Remove(_) => true,
    }
}

/// Whether all of them add squares.
fn all_add(edits: &[Edit]) -> bool
    ensures { IsTrue result ↔ All IsAdd edits.now }
{
    edits.iter().all(is_add)
}

/// Whether all of them take squares away.
fn all_remove(edits: &[Edit]) -> bool
    ensures { IsTrue result ↔ All IsRemove edits.now }
{
    edits.iter().all(is_remove)
}

/// The rectangle of an edit.
fn rect_of(edit: &Edit) -> Rect
    ensures { result ≡ rect_of edit.now }
{
    match edit {
        Edit::Add(r) => *r,
        Edit::Remove(r) => *r,
    }
}

/// The rectangles of edits, in their order.
fn rects_of(alloc: Global, edits: &[Edit]) -> Result<Vec<Rect>, AllocError>
    ensures { IfOk result (λ v. v.items ≡ map rect_of edits.now) }
{
    edits.iter().map(rect_of).collect(alloc)
}

/// The set without the squares of holes. Where it has no squares, or there are no holes, it is handed back as it is.
fn without(alloc: Global, set: Slabs, holes: &[Rect]) -> Result<Slabs, AllocError>
    requires { AreRectsWithin farthest holes.now }
    ensures { IfOk result (λ s. AreSlabsOf (λ p. Covers set p × ¬ Covers holes.now p) s) }
{
    if set.rects().is_empty() || holes.is_empty() {
        return Ok(set);
    }
    Slabs::of_rects_without(alloc, set.rects(), holes)
}

/// The squares of either set. Where one has none, the other is handed back as it is.
fn united(alloc: Global, set: Slabs, more: Slabs) -> Result<Slabs, AllocError>
    ensures { IfOk result (λ s. AreSlabsOf (λ p. Covers set p ⊎ Covers more p) s) }
{
    if set.rects().is_empty() {
        return Ok(more);
    }
    if more.rects().is_empty() {
        return Ok(set);
    }
    set.union(alloc, &more)
}

impl Change {
    /// This change, and a later one after it.
    fn and_then(self, alloc: Global, later: Change) -> Result<Change, AllocError>
        requires first { AreRectsWithin farthest self.removed.items }
        requires later { AreRectsWithin farthest later.removed.items }
        ensures both { IfOk result (λ c. (es fs : List Edit) → IsChangeOf es self → IsChangeOf fs later → IsChangeOf (es ++ fs) c) }
        ensures within { IfOk result (λ c. AreRectsWithin farthest c.removed.items) }
    {
        let Change { added, mut removed } = self;
        let kept = without(alloc, added, &later.removed)?;
        removed.extend_from_slice(&later.removed)?;
        let added = united(alloc, kept, later.added)?;
        Ok(Change { added, removed })
    }

    /// What the change makes of a layer.
    fn made_to(self, alloc: Global, layer: Slabs) -> Result<Slabs, AllocError>
        requires { AreRectsWithin farthest self.removed.items }
        ensures { IfOk result (λ s. AreSlabsOf (with_change (Covers layer) self) s) }
    {
        let Change { added, removed } = self;
        let kept = without(alloc, layer, &removed)?;
        drop(removed);
        united(alloc, kept, added)
    }
}

/// What edits come down to. Edits of one kind are taken together, and others by halves.
fn change_of(alloc: Global, edits: &[Edit]) -> Result<Change, AllocError>
    requires { All IsEdit edits.now }
    ensures change { IfOk result (λ c. IsChangeOf edits.now c) }
    ensures within { IfOk result (λ c. AreRectsWithin farthest c.removed.items) }
{
    if all_add(edits) {
        let rects = rects_of(alloc, edits)?;
        let added = Slabs::of_rects(alloc, rects)?;
        return Ok(Change {
            added,
            removed: Vec::new(alloc),
        });
    }
    if all_remove(edits) {
        let removed = rects_of(alloc, edits)?;
        return Ok(Change {
            added: Slabs::empty(alloc),
            removed,
        });
    }
    let (first, second) = edits.split_at(edits.len() / 2);
    let first = change_of(alloc, first)?;
    let second = change_of(alloc, second)?;
    first.and_then(alloc, second)
}

/// The layer's squares after the edits, which are made in order. Without edits it is the layer as it is. Fails where memory runs out.
pub fn edited(alloc: Global, layer: Slabs, edits: &[Edit]) -> Result<Slabs, AllocError>
    requires { All IsEdit edits.now }
    ensures { IfOk result (λ s. AreSlabsOf (edited (Covers layer) edits.now) s) }
{
    let change = change_of(alloc, edits)?;
    change.made_to(alloc, layer)
}
