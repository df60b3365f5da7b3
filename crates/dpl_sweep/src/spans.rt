//! The sweep of edges that are beside few spans of rows each. A span, the rows between two neighbours among all rows at which edges begin or end, keeps one run from the first edge to the last.
ghost use Rattle.std.specs.Prelude.{◌≡◌, ◌+◌, ◌-◌, ◌<◌, ◌≤◌, ◌^◌, ◌≤ℤ◌, ℕ, IfOk, OnOk, length, take};
ghost use Rattle.std.specs.List.{All, Contains};
ghost use Rattle.dpl_spec_split.specs.Squares.{Covers, SameSquares};
ghost use Rattle.dpl_sweep.specs.declared.edge.Edge.{Edge};
ghost use Rattle.dpl_sweep.specs.Edges.{Told};
ghost use Rattle.dpl_sweep.specs.Spans.{AddsStep, AreInOrder, AreReady, AreSpansOf, AreSteps, HasEnds, span_at};
ghost use Rattle.dpl_sweep.specs.Orders.{EdgesRise, RowsRise};
ghost use Rattle.dpl_sweep.specs.Passes.{AreUnitEdges, IsClosed, IsStart};
ghost use Rattle.dpl_order.specs.Pieces.{AreApart};

use crate::edge::{Edge, Rule};
use crate::few::pass_band;
use crate::order::sort_rows;
use crate::run::{Run, put_run};
use dpl_spec_split::Rect;
use std::alloc::{AllocError, Global};

/// The rows from `low` up to but not `high`.
#[derive(Clone, Copy, Drop)]
pub struct Span {
    pub low: i32,
    pub high: i32,
}

/// The rows at which edges begin or end, from the lowest up.
fn ends_of(alloc: Global, edges: &[Edge]) -> Result<Vec<i32>, AllocError>
    ensures rise { IfOk result (λ v. RowsRise v.items) }
    ensures ends { IfOk result (λ v. All (HasEnds v.items) edges.now) }
{
    let mut ends = Vec::with_capacity(alloc, edges.len().saturating_mul(2))?;
    for edge in edges {
        ends.push(edge.y0)?;
        ends.push(edge.y1)?;
    }
    sort_rows(&mut ends);
    Ok(ends)
}

/// Adds the span between two rows, unless there is none.
fn add_step(spans: &mut Vec<Span>, low: i32, high: i32) -> Result<(), AllocError>
    ensures { OnOk result (AddsStep low high spans.old.items spans.new.items) }
{
    if high <= low {
        return Ok(());
    }
    spans.push(Span { low, high })?;
    Ok(())
}

/// The spans between neighbours among the rows.
fn steps_of(alloc: Global, ends: &[i32]) -> Result<Vec<Span>, AllocError>
    requires { RowsRise ends.now }
    ensures { IfOk result (λ v. AreSteps ends.now (length ends.now - 1) v.items) }
{
    let mut spans = Vec::new(alloc);
    for k in 1..ends.len() {
        add_step(&mut spans, ends[k - 1], ends[k])?;
    }
    Ok(spans)
}

/// The spans between neighbours among all rows at which edges begin or end.
pub fn spans_of(alloc: Global, edges: &[Edge]) -> Result<Vec<Span>, AllocError>
    ensures { IfOk result (λ v. AreSpansOf edges.now v.items) }
{
    let ends = ends_of(alloc, edges)?;
    steps_of(alloc, &ends)
}

/// How many of the first spans end below the row, or at it.
fn first_above(spans: &[Span], row: i32) -> usize
    requires { AreInOrder spans.now }
    ensures { (j : ℕ) → j < result → j < length spans.now → (span_at spans.now j).high ≤ℤ row }
{
    let k = spans.partition_point(|s| s.high <= row);
    if k == 0 || k > spans.len() || spans[k - 1].high > row {
        return 0;
    }
    k
}

/// Goes past one edge more.
fn pass_edge(
    spans: &[Span],
    runs: &mut Vec<Run>,
    rule: Rule,
    edges: &[Edge],
    i: usize,
    pieces: &mut Vec<Rect>,
) -> Result<(), AllocError>
    requires within { i < length edges.now }
    requires room { length edges.now < 2 ^ 62 }
    requires rise { EdgesRise edges.now }
    requires units { AreUnitEdges edges.now }
    requires spans { AreSpansOf edges.now spans.now }
    requires ready { AreReady rule (take i edges.now) edges.now spans.now runs.old.items pieces.old.items }
    ensures { OnOk result (AreReady rule (take (i + 1) edges.now) edges.now spans.now runs.new.items pieces.new.items) }
{
    let edge = edges[i];
    let mut k = first_above(spans, edge.y0);
    while k < spans.len() && spans[k].low < edge.y1 {
        let span = spans[k];
        runs[k] = pass_band(runs[k], rule, &edge, span.low, span.high, i, pieces)?;
        k += 1;
    }
    Ok(())
}

/// Puts down all runs, once all edges are passed.
fn shut(
    spans: &[Span],
    runs: &[Run],
    rule: Rule,
    edges: &[Edge],
    pieces: &mut Vec<Rect>,
) -> Result<(), AllocError>
    requires rise { EdgesRise edges.now }
    requires closed { IsClosed rule edges.now }
    requires spans { AreSpansOf edges.now spans.now }
    requires ready { AreReady rule edges.now edges.now spans.now runs.now pieces.old.items }
    ensures apart { OnOk result (AreApart pieces.new.items) }
    ensures covers { OnOk result (SameSquares (Covers pieces.new.items) (Told rule edges.now)) }
{
    for k in 0..spans.len() {
        put_run(&runs[k], spans[k].low, spans[k].high, pieces)?;
    }
    Ok(())
}

/// The pieces of the set that edges tell, by spans of rows.
pub fn pieces_by_spans(
    alloc: Global,
    edges: &[Edge],
    spans: &[Span],
    rule: Rule,
) -> Result<Vec<Rect>, AllocError>
    requires room { length edges.now < 2 ^ 62 }
    requires rise { EdgesRise edges.now }
    requires units { AreUnitEdges edges.now }
    requires closed { IsClosed rule edges.now }
    requires spans { AreSpansOf edges.now spans.now }
    ensures apart { IfOk result (λ v. AreApart v.items) }
    ensures covers { IfOk result (λ v. SameSquares (Covers v.items) (Told rule edges.now)) }
{
    let mut pieces = Vec::new(alloc);
    if edges.is_empty() {
        return Ok(pieces);
    }
    let start = Run {
        from: edges[0].x,
        at: edges[0].x,
        a: 0,
        b: 0,
    };
    let mut runs = vec![in alloc; start; spans.len()]?;
    for i in 0..edges.len() {
        pass_edge(spans, &mut runs, rule, edges, i, &mut pieces)?;
    }
    shut(spans, &runs, rule, edges, &mut pieces)?;
    Ok(pieces)
}
