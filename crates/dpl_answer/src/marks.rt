//! Marks: squares that are fixed to a mask, and the edges that they make.
ghost use Rattle.std.specs.Prelude.{◌≡◌, IfOk};
ghost use Rattle.std.specs.Option.{option_copied, option_map};
ghost use Rattle.dpl_answer.specs.Sheets.{HavePairs};
ghost use Rattle.dpl_answer.specs.Anchors.{AreMarkEdges, marks_in, with_marks};

use dpl_base::Edge;
use dpl_edges::{mark_edges, shifted};
use dpl_slabs::{Parts, Slabs};
use std::alloc::{AllocError, Global};

/// The squares that are fixed to each mask. One that is fixed to both is a conflict.
#[derive(Drop)]
pub struct MarkSets {
    /// Those that are fixed to mask A.
    pub a: Slabs,
    /// Those that are fixed to mask B.
    pub b: Slabs,
}

/// The edges that marks make, by vertices, where marks are asked for.
pub(crate) fn edges_of_marks(
    alloc: Global,
    parts: &Parts,
    marks: Option<&MarkSets>,
) -> Result<Option<Vec<Edge>>, AllocError>
    ensures edges { IfOk result (λ marked. AreMarkEdges (marks_in (option_copied marks.entry)) parts.now (option_map (λ v. v.items) marked)) }
    ensures pairs { IfOk result (λ marked. HavePairs (option_map (λ v. v.items) marked)) }
{
    let Some(sets) = marks else {
        return Ok(None);
    };
    let edges = mark_edges(alloc, parts, &sets.a, &sets.b)?;
    Ok(Some(edges))
}

/// Edges of pieces, as they are where no marks are asked for; else the edges of the marks, and then these by their vertices.
pub(crate) fn joined_with(
    alloc: Global,
    edges: Vec<Edge>,
    marked: &Option<Vec<Edge>>,
) -> Result<Vec<Edge>, AllocError>
    ensures { IfOk result (λ v. v.items ≡ with_marks (option_map (λ v. v.items) marked.now) edges.items) }
{
    let Some(marked) = marked else {
        return Ok(edges);
    };
    let moved = shifted(alloc, &edges)?;
    drop(edges);
    let mut all = Vec::with_capacity(alloc, marked.len().saturating_add(moved.len()))?;
    all.extend_from_slice(marked)?;
    all.extend_from_slice(&moved)?;
    Ok(all)
}
