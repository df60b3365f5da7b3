//! Components with marked pieces.
ghost use Rattle.std.specs.Prelude.{◌≡◌, ◌<◌, ◌↔◌, ℕ, IfOk, IsTrue, length, slice_index, slice_index_or, true, false};
ghost use Rattle.dpl_spec_split.specs.Marks.{HasSome};
ghost use Rattle.dpl_spec_split.specs.Squares.{Covers};
ghost use Rattle.dpl_gains.specs.Held.{IsHeldBelow};

use dpl_base::Id;
use dpl_slabs::Slabs;
use dpl_tree::SetTree;
use std::alloc::{AllocError, Global};

/// Whether the set has a square of the piece.
fn has_some(part: &Slabs, set: &SetTree) -> bool
    ensures { IsTrue result ↔ HasSome (Covers part.now) (Covers set.now) }
{
    for r in part.rects() {
        if set.meets(r) {
            return true;
        }
    }
    false
}

/// For each root whether a piece of its component has a square of the set.
pub(crate) fn held_roots(
    alloc: Global,
    parts: &[Slabs],
    roots: &[Id],
    set: &Slabs,
) -> Result<Vec<bool>, AllocError>
    requires each { length roots.now ≡ length parts.now }
    requires below { (k : ℕ) → k < length roots.now → slice_index roots.now k < length roots.now }
    ensures each { IfOk result (λ v. length v.items ≡ length roots.now) }
    ensures held { IfOk result (λ v. (root : ℕ) → (slice_index_or v.items root false ≡ true) ↔ IsHeldBelow parts.now roots.now set.now (length parts.now) root) }
{
    let mut held = vec![in alloc; false; roots.len()]?;
    if set.rects().is_empty() {
        return Ok(held);
    }
    let tree = SetTree::of(alloc, set)?;
    for k in 0..parts.len() {
        if has_some(&parts[k], &tree) {
            held[roots[k] as usize] = true;
        }
    }
    Ok(held)
}
