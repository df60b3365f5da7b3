//! The sweep over all edges by one tree of bands, for edges that are beside many bands.
ghost use Rattle.std.specs.Prelude.{◌≡◌, [], ◌<◌, ◌^◌, ◌≤ℤ◌, IfOk, OnOk, length};
ghost use Rattle.std.specs.List.{Contains};
ghost use Rattle.dpl_spec_split.specs.Squares.{Covers, SameSquares};
ghost use Rattle.dpl_sweep.specs.declared.edge.Edge.{Edge};
ghost use Rattle.dpl_sweep.specs.Edges.{Told};
ghost use Rattle.dpl_sweep.specs.Orders.{EdgesRise};
ghost use Rattle.dpl_sweep.specs.Passes.{AreUnitEdges, IsClosed, IsPassed, IsStart, IsUnitEdge, PassesOn, end_row, first_row};
ghost use Rattle.dpl_order.specs.Pieces.{AreApart};
ghost use Rattle.dpl_sweep.specs.Rows.{AreRows, IsSmall};

use crate::bands::Bands;
use crate::edge::{Edge, Rule};
use crate::run::Run;
use dpl_spec_split::Rect;
use std::alloc::{AllocError, Global};

/// The first row that an edge may be beside.
const LOW: i32 = i32::MIN;

/// The row after the last that an edge may be beside.
const HIGH: i32 = i32::MAX;

/// Goes past one edge more, behind so many others.
fn pass_one(
    alloc: Global,
    bands: &mut Bands,
    edge: Edge,
    rule: Rule,
    count: usize,
    pieces: &mut Vec<Rect>,
) -> Result<(), AllocError>
    requires room { count < 2 ^ 62 }
    requires unit { IsUnitEdge edge }
    requires rows { AreRows first_row end_row edge.x bands.old }
    requires sums { IsSmall count bands.old }
    ensures { OnOk result (PassesOn rule edge count pieces.old.items pieces.new.items bands.old bands.new) }
{
    bands.sweep(alloc, rule, &edge, LOW, HIGH, count, pieces)?;
    Ok(())
}

/// Goes past all edges.
fn pass(
    alloc: Global,
    edges: &[Edge],
    rule: Rule,
    start: Run,
    pieces: &mut Vec<Rect>,
) -> Result<Bands, AllocError>
    requires room { length edges.now < 2 ^ 62 }
    requires rise { EdgesRise edges.now }
    requires units { AreUnitEdges edges.now }
    requires start { IsStart start }
    requires first { (e : Edge) → Contains edges.now e → start.at ≤ℤ e.x }
    requires none { pieces.old.items ≡ [] }
    ensures { IfOk result (λ t. IsPassed rule edges.now first_row end_row start pieces.new.items t) }
{
    let mut bands = Bands::One(start);
    for i in 0..edges.len() {
        pass_one(alloc, &mut bands, edges[i], rule, i, pieces)?;
    }
    Ok(bands)
}

/// The pieces of the set that edges tell.
pub fn pieces_by_tree(alloc: Global, edges: &[Edge], rule: Rule) -> Result<Vec<Rect>, AllocError>
    requires room { length edges.now < 2 ^ 62 }
    requires rise { EdgesRise edges.now }
    requires units { AreUnitEdges edges.now }
    requires closed { IsClosed rule edges.now }
    ensures apart { IfOk result (λ v. AreApart v.items) }
    ensures covers { IfOk result (λ v. SameSquares (Covers v.items) (Told rule edges.now)) }
{
    let mut pieces = Vec::new(alloc);
    if edges.is_empty() {
        return Ok(pieces);
    }
    let start = Run {
        from: edges[0].x,
        at: edges[0].x,
        a: 0,
        b: 0,
    };
    let bands = pass(alloc, edges, rule, start, &mut pieces)?;
    bands.put_down(LOW, HIGH, &mut pieces)?;
    Ok(pieces)
}
