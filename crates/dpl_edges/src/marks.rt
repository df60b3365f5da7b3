//! Edges of marks, by vertices: the anchor of mask A is vertex 0, that of mask B vertex 1, and piece `k` is vertex `k + 2`.
ghost use Rattle.std.specs.Prelude.{◌≡◌, ◌↔◌, ◌⊎◌, ℕ, ◌+◌, IfOk, OnOk, IsTrue, map};
ghost use Rattle.std.specs.List.{AllPairs, Contains};
ghost use Rattle.dpl_spec_split.specs.Graphs.{AreEdges, Precedes};
ghost use Rattle.dpl_spec_split.specs.Marks.{HasSome, MarkEdge};
ghost use Rattle.dpl_spec_split.specs.Squares.{Covers};
ghost use Rattle.dpl_edges.specs.Fixed.{IsAnchorEdge, IsAhead, marks_of};

use dpl_base::{Edge, Id};
use dpl_slabs::{Parts, Slabs};
use dpl_tree::SetTree;
use std::alloc::{AllocError, Global};

/// Whether the set has a square of the piece.
fn has_some(part: &Slabs, set: &SetTree) -> bool
    ensures { IsTrue result ↔ HasSome (Covers part.now) (Covers set.now) }
{
    for r in part.rects() {
        if set.meets(r) {
            return true;
        }
    }
    false
}

/// Adds the edges of an anchor and the pieces with a square of the set, in order.
fn add_fixed(
    alloc: Global,
    edges: &mut Vec<Edge>,
    parts: &[Slabs],
    set: &Slabs,
    anchor: Id,
) -> Result<(), AllocError>
    requires ordered { AllPairs Precedes edges.now.items }
    requires ahead { IsAhead anchor edges.now.items }
    ensures ordered { OnOk result (AllPairs Precedes edges.new.items) }
    ensures members { OnOk result ((e : ℕ × ℕ) → Contains edges.new.items e ↔ (Contains edges.old.items e ⊎ IsAnchorEdge parts.now set.now anchor e)) }
{
    let tree = SetTree::of(alloc, set)?;
    for k in 0..parts.len() {
        if has_some(&parts[k], &tree) {
            let Some(vertex) = (k as Id).checked_add(2) else {
                return Err(AllocError);
            };
            edges.push((anchor, vertex))?;
        }
    }
    Ok(())
}

/// The edges that marks make, smaller vertex first, in order, each once: that of the two anchors, that of mask A's anchor and each piece with a square marked B, and that of mask B's anchor and each piece with a square marked A. A marked piece of number 2^64 - 2 or more, whose vertex has no number in 64 bits, is answered as out of memory.
///
/// The error: out of memory.
pub fn mark_edges(
    alloc: Global,
    parts: &Parts,
    a: &Slabs,
    b: &Slabs,
) -> Result<Vec<Edge>, AllocError>
    ensures { IfOk result (λ v. AreEdges (MarkEdge (marks_of a.now b.now) parts.now) v.items) }
{
    let mut edges = Vec::new(alloc);
    edges.push((0, 1))?;
    add_fixed(alloc, &mut edges, parts.items(), b, 0)?;
    add_fixed(alloc, &mut edges, parts.items(), a, 1)?;
    Ok(edges)
}

/// Edges of pieces by their vertices: 2 is added to each number. A number of 2^64 - 2 or more, whose vertex has none in 64 bits, is answered as out of memory.
///
/// The error: out of memory.
pub fn shifted(alloc: Global, edges: &[Edge]) -> Result<Vec<Edge>, AllocError>
    ensures { IfOk result (λ v. v.items ≡ map (λ (e : ℕ × ℕ). (e.0 + 2, e.1 + 2)) edges.now) }
{
    let mut moved = Vec::with_capacity(alloc, edges.len())?;
    for (i, k) in edges {
        let (Some(u), Some(v)) = (i.checked_add(2), k.checked_add(2)) else {
            return Err(AllocError);
        };
        moved.push((u, v))?;
    }
    Ok(moved)
}
