//! The choice of a sweep: band by band, by spans of rows, or by a tree of bands.
ghost use Rattle.std.specs.Prelude.{◌<◌, ◌^◌, IfOk, length};
ghost use Rattle.dpl_spec_split.specs.Squares.{Covers, SameSquares};
ghost use Rattle.dpl_sweep.specs.Edges.{Told};
ghost use Rattle.dpl_sweep.specs.Orders.{EdgesRise};
ghost use Rattle.dpl_sweep.specs.Passes.{AreUnitEdges, IsClosed};
ghost use Rattle.dpl_order.specs.Pieces.{AreApart};

use crate::by_tree::pieces_by_tree;
use crate::edge::{Edge, Rule};
use crate::few::{next_row, pieces_by_bands, rows_of};
use crate::spans::{Span, pieces_by_spans, spans_of};
use dpl_spec_split::Rect;
use std::alloc::{AllocError, Global};

/// Up to how many edges are swept band by band, however many bands there are.
pub const FEW_EDGES: usize = 64;

/// Up to how many edges are swept band by band where there are few bands.
const MANY_EDGES: usize = 4096;

/// How many bands are few.
const FEW_BANDS: usize = 16;

/// Beside how many spans an edge may be on average where edges are swept by spans.
const BESIDE: usize = 32;

/// Whether the edges are few, or end in few bands.
fn have_few_bands(edges: &[Edge]) -> bool {
    if edges.len() <= FEW_EDGES {
        return true;
    }
    if edges.len() > MANY_EDGES {
        return false;
    }
    let (mut row, top) = rows_of(edges);
    for _ in 0..FEW_BANDS {
        if row >= top {
            return true;
        }
        row = next_row(edges, row, top);
    }
    false
}

/// How many spans the edges are beside, each counted for each edge.
fn count_beside(edges: &[Edge], spans: &[Span]) -> usize {
    let mut count: usize = 0;
    for edge in edges {
        let first = spans.partition_point(|s| s.high <= edge.y0);
        let end = spans.partition_point(|s| s.low < edge.y1);
        count = count.saturating_add(end.saturating_sub(first));
    }
    count
}

/// The pieces of the set that edges tell: by spans of rows where each edge is beside few of them, by a tree of bands else.
fn pieces_of_many(alloc: Global, edges: &[Edge], rule: Rule) -> Result<Vec<Rect>, AllocError>
    requires room { length edges.now < 2 ^ 62 }
    requires rise { EdgesRise edges.now }
    requires units { AreUnitEdges edges.now }
    requires closed { IsClosed rule edges.now }
    ensures apart { IfOk result (λ v. AreApart v.items) }
    ensures covers { IfOk result (λ v. SameSquares (Covers v.items) (Told rule edges.now)) }
{
    let spans = spans_of(alloc, edges)?;
    if count_beside(edges, &spans) <= edges.len().saturating_mul(BESIDE) {
        return pieces_by_spans(alloc, edges, &spans, rule);
    }
    drop(spans);
    pieces_by_tree(alloc, edges, rule)
}

/// The pieces of the set that edges tell: band by band where there are few bands, else as those of many.
pub fn pieces_of(alloc: Global, edges: &[Edge], rule: Rule) -> Result<Vec<Rect>, AllocError>
    requires room { length edges.now < 2 ^ 62 }
    requires rise { EdgesRise edges.now }
    requires units { AreUnitEdges edges.now }
    requires closed { IsClosed rule edges.now }
    ensures apart { IfOk result (λ v. AreApart v.items) }
    ensures covers { IfOk result (λ v. SameSquares (Covers v.items) (Told rule edges.now)) }
{
    if have_few_bands(edges) {
        return pieces_by_bands(alloc, edges, rule);
    }
    pieces_of_many(alloc, edges, rule)
}
