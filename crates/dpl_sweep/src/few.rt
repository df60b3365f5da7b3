//! The sweep of edges that begin and end at few rows, band by band: the rows between two neighbours of these have the same run at each column.
ghost use Rattle.std.specs.Prelude.{◌≡◌, ◌⊎◌, ◌<◌, ◌^◌, ◌≤ℤ◌, ◌<ℤ◌, IfOk, OnOk, length};
ghost use Rattle.std.specs.List.{All, Contains};
ghost use Rattle.dpl_spec_split.specs.Squares.{Covers, SameSquares};
ghost use Rattle.dpl_sweep.specs.declared.edge.Edge.{Edge};
ghost use Rattle.dpl_sweep.specs.Edges.{Told};
ghost use Rattle.dpl_sweep.specs.declared.bands.Bands.{One};
ghost use Rattle.dpl_sweep.specs.Few.{AreDone, EndsOutside, IsWithin, PassesBand};
ghost use Rattle.dpl_sweep.specs.Orders.{EdgesRise};
ghost use Rattle.dpl_sweep.specs.Passes.{AreUnitEdges, IsClosed, IsStart, IsUnitEdge};
ghost use Rattle.dpl_order.specs.Pieces.{AreApart};
ghost use Rattle.dpl_sweep.specs.Rows.{AreRows, IsSmall};

use crate::edge::{Edge, Rule};
use crate::run::{Run, moved, put_run};
use crate::step::misses;
use dpl_spec_split::Rect;
use std::alloc::{AllocError, Global};

/// The lowest row that an edge is beside, and the one above the highest.
pub fn rows_of(edges: &[Edge]) -> (i32, i32)
    ensures { All (IsWithin result.0 result.1) edges.now }
{
    let mut low = i32::MAX;
    let mut top = i32::MIN;
    for edge in edges {
        low = low.min(edge.y0);
        top = top.max(edge.y1);
    }
    (low, top)
}

/// A row where it is above another, and else `top`.
fn row_above(y: i32, row: i32, top: i32) -> i32
    requires { row <ℤ top }
    ensures above { row <ℤ result }
    ensures known { (y ≤ℤ row) ⊎ (result ≡ y) }
{
    if row < y {
        return y;
    }
    top
}

/// The nearest row above a row at which an edge begins or ends, up to `top`.
pub fn next_row(edges: &[Edge], row: i32, top: i32) -> i32
    requires { row <ℤ top }
    ensures above { row <ℤ result }
    ensures below { result ≤ℤ top }
    ensures none { All (EndsOutside row result) edges.now }
{
    let mut next = top;
    for edge in edges {
        let first = row_above(edge.y0, row, top);
        let last = row_above(edge.y1, row, top);
        next = next.min(first).min(last);
    }
    next
}

/// The run of the rows from `low` up to but not `high` past one edge more, behind so many others.
pub fn pass_band(
    run: Run,
    rule: Rule,
    edge: &Edge,
    low: i32,
    high: i32,
    count: usize,
    pieces: &mut Vec<Rect>,
) -> Result<Run, AllocError>
    requires order { low <ℤ high }
    requires room { count < 2 ^ 62 }
    requires unit { IsUnitEdge edge.now }
    requires none { EndsOutside low high edge.now }
    requires rows { AreRows low high edge.now.x (One run) }
    requires sums { IsSmall count (One run) }
    ensures { IfOk result (λ after. PassesBand rule edge.now low high count run after pieces.old.items pieces.new.items) }
{
    if misses(edge, low, high) {
        return Ok(run);
    }
    moved(run, rule, edge, low, high, pieces)
}

/// Adds the pieces of the rows from `low` up to but not `high`, between which no edge begins or ends.
fn sweep_band(
    edges: &[Edge],
    rule: Rule,
    start: Run,
    low: i32,
    high: i32,
    pieces: &mut Vec<Rect>,
) -> Result<(), AllocError>
    requires room { length edges.now < 2 ^ 62 }
    requires rise { EdgesRise edges.now }
    requires units { AreUnitEdges edges.now }
    requires closed { IsClosed rule edges.now }
    requires start { IsStart start }
    requires first { (e : Edge) → Contains edges.now e → start.at ≤ℤ e.x }
    requires order { low <ℤ high }
    requires none { All (EndsOutside low high) edges.now }
    requires done { AreDone rule edges.now low pieces.old.items }
    ensures { OnOk result (AreDone rule edges.now high pieces.new.items) }
{
    let mut run = start;
    for i in 0..edges.len() {
        run = pass_band(run, rule, &edges[i], low, high, i, pieces)?;
    }
    put_run(&run, low, high, pieces)
}

/// The pieces of the set that edges tell, band by band.
pub fn pieces_by_bands(alloc: Global, edges: &[Edge], rule: Rule) -> Result<Vec<Rect>, AllocError>
    requires room { length edges.now < 2 ^ 62 }
    requires rise { EdgesRise edges.now }
    requires units { AreUnitEdges edges.now }
    requires closed { IsClosed rule edges.now }
    ensures apart { IfOk result (λ v. AreApart v.items) }
    ensures covers { IfOk result (λ v. SameSquares (Covers v.items) (Told rule edges.now)) }
{
    let mut pieces = Vec::new(alloc);
    if edges.is_empty() {
        return Ok(pieces);
    }
    let start = Run {
        from: edges[0].x,
        at: edges[0].x,
        a: 0,
        b: 0,
    };
    let (mut low, top) = rows_of(edges);
    while low < top {
        let high = next_row(edges, low, top);
        sweep_band(edges, rule, start, low, high, &mut pieces)?;
        low = high;
    }
    Ok(pieces)
}
