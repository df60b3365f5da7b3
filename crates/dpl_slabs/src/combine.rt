//! Any two sets in one.
ghost use Rattle.std.specs.Prelude.{◌≡◌, ◌≤◌, [], ◌∷◌, List, IfOk, IfSome, OnOk, unsigned_abs};
ghost use Rattle.dpl_spec_split.specs.declared.Rect.{Rect};
ghost use Rattle.dpl_spec_split.specs.Squares.{Covers, SameSquares};
ghost use Rattle.dpl_spec_split.specs.Slabs.{AreSlabsOf};
ghost use Rattle.std.specs.List.Sorted.{IsPermutation};
ghost use Rattle.dpl_sweep.specs.declared.edge.Rule.{Rule};
ghost use Rattle.dpl_order.specs.Orders.{CornersRise};
ghost use Rattle.dpl_sweep.specs.Edges.{Told};
ghost use Rattle.dpl_sweep.specs.Passes.{AreUnitEdges, IsClosed};
ghost use Rattle.dpl_spec_split.specs.Loops.{farthest, IsRectWithin, AreRectsWithin};
ghost use Rattle.dpl_slabs.specs.Cells.{AddsRects, Chosen};
ghost use Rattle.dpl_slabs.specs.Slices.{Without};

use dpl_base::Rect;
use dpl_order::sort_by_corner;
use dpl_sweep::{Edge, FEW_EDGES, Rule, slabs_of_edges};
use dpl_upward::slabs_upward_without;
use std::alloc::{AllocError, Global};

/// An edge in a column, beside the rows of a rectangle.
fn edge_of(r: &Rect, x: i32, a: i8, b: i8) -> Edge
    ensures { result ≡ record { x = x; y0 = r.now.y0; y1 = r.now.y1; a = a; b = b } }
{
    Edge {
        x,
        y0: r.y0,
        y1: r.y1,
        a,
        b,
    }
}

/// Adds the two edges of a rectangle, and, unless there are few edges in all, one right of them that changes nothing: by it a sweep over many edges is done with the rectangle's rows early.
fn add_rect(edges: &mut Vec<Edge>, r: &Rect, a: i8, b: i8, are_few: bool) -> Result<(), AllocError>
    requires first { unsigned_abs a ≤ 1 }
    requires second { unsigned_abs b ≤ 1 }
    requires within { IsRectWithin farthest r.now }
    ensures { OnOk result (AddsRects a b edges.old.items edges.new.items (r.now ∷ [])) }
{
    if r.x1 <= r.x0 {
        return Ok(());
    }
    edges.push(edge_of(r, r.x0, a, b))?;
    edges.push(edge_of(r, r.x1, -a, -b))?;
    if are_few {
        return Ok(());
    }
    edges.push(edge_of(r, r.x1 + 1, 0, 0))?;
    Ok(())
}

/// Adds the edges of rectangles.
fn add_rects(
    edges: &mut Vec<Edge>,
    rects: &[Rect],
    a: i8,
    b: i8,
    are_few: bool,
) -> Result<(), AllocError>
    requires first { unsigned_abs a ≤ 1 }
    requires second { unsigned_abs b ≤ 1 }
    requires within { AreRectsWithin farthest rects.now }
    ensures { OnOk result (AddsRects a b edges.old.items edges.new.items rects.now) }
{
    for r in rects {
        add_rect(edges, r, a, b, are_few)?;
    }
    Ok(())
}

/// The edges of two lists of rectangles, one list for each of the two sums.
fn edges_of(alloc: Global, first: &[Rect], second: &[Rect]) -> Result<Vec<Edge>, AllocError>
    requires first { AreRectsWithin farthest first.now }
    requires second { AreRectsWithin farthest second.now }
    ensures units { IfOk result (λ v. AreUnitEdges v.items) }
    ensures closed { IfOk result (λ v. (rule : Rule) → IsClosed rule v.items) }
    ensures told { IfOk result (λ v. (rule : Rule) → SameSquares (Told rule v.items) (Chosen rule first.now second.now)) }
{
    let rects = first.len().saturating_add(second.len());
    let are_few = rects <= FEW_EDGES / 2;
    let mut edges = Vec::with_capacity(alloc, rects.saturating_mul(3))?;
    add_rects(&mut edges, first, 1, 0, are_few)?;
    add_rects(&mut edges, second, 0, 1, are_few)?;
    Ok(edges)
}

/// The slabs of the squares of two lists of rectangles that the rule takes.
pub fn combine(
    alloc: Global,
    first: &[Rect],
    second: &[Rect],
    rule: Rule,
) -> Result<Vec<Rect>, AllocError>
    requires first { AreRectsWithin farthest first.now }
    requires second { AreRectsWithin farthest second.now }
    ensures slabs { IfOk result (λ v. AreSlabsOf (Chosen rule first.now second.now) v.items) }
    ensures within { IfOk result (λ v. AreRectsWithin farthest v.items) }
{
    let edges = edges_of(alloc, first, second)?;
    slabs_of_edges(alloc, edges, rule)
}

/// The rule that takes the squares of rectangles that no hole has. Where there are no holes, it is that of a union, whose sweep passes over what lies under other rectangles.
fn rule_without(holes: &[Rect]) -> Rule
    ensures { (rects : List Rect) → SameSquares (Chosen result rects holes.now) (Without rects holes.now) }
{
    if holes.is_empty() {
        return Rule::Either;
    }
    Rule::Minus
}

/// The slabs of the squares that rectangles have and no hole has, by one sweep.
pub fn combine_without(
    alloc: Global,
    rects: &[Rect],
    holes: &[Rect],
) -> Result<Vec<Rect>, AllocError>
    requires rects { AreRectsWithin farthest rects.now }
    requires holes { AreRectsWithin farthest holes.now }
    ensures slabs { IfOk result (λ v. AreSlabsOf (Without rects.now holes.now) v.items) }
    ensures within { IfOk result (λ v. AreRectsWithin farthest v.items) }
{
    if rects.is_empty() {
        return Ok(Vec::new(alloc));
    }
    combine(alloc, rects, holes, rule_without(holes))
}

/// A copy of rectangles, by first row, then by left column.
fn by_corner(alloc: Global, rects: &[Rect]) -> Result<Vec<Rect>, AllocError>
    ensures same { IfOk result (λ v. IsPermutation rects.now v.items) }
    ensures rise { IfOk result (λ v. CornersRise v.items) }
{
    let mut sorted = Vec::with_capacity(alloc, rects.len())?;
    sorted.extend_from_slice(rects)?;
    sort_by_corner(&mut sorted);
    Ok(sorted)
}

/// The slabs of the squares that rectangles have and no hole has, by a sweep from the lowest row up, or none where there are holes and few of both, or where too many of both lie side by side.
pub fn upward_without(
    alloc: Global,
    rects: &[Rect],
    holes: &[Rect],
) -> Result<Option<Vec<Rect>>, AllocError>
    ensures { IfOk result (λ found. IfSome found (λ v. AreSlabsOf (Without rects.now holes.now) v.items)) }
{
    if !holes.is_empty() && rects.len().saturating_add(holes.len()) <= FEW_EDGES / 2 {
        return Ok(None);
    }
    let rects = by_corner(alloc, rects)?;
    let holes = by_corner(alloc, holes)?;
    slabs_upward_without(alloc, &rects, &holes)
}

/// The slabs of the squares that rectangles have and no hole has, by one sweep. The lists are let go before it, unless it goes from the lowest row up.
pub fn combine_lists_without(
    alloc: Global,
    rects: Vec<Rect>,
    holes: Vec<Rect>,
) -> Result<Vec<Rect>, AllocError>
    requires rects { AreRectsWithin farthest rects.items }
    requires holes { AreRectsWithin farthest holes.items }
    ensures { IfOk result (λ v. AreSlabsOf (Without rects.items holes.items) v.items) }
{
    if rects.is_empty() {
        return Ok(Vec::new(alloc));
    }
    if let Some(slabs) = upward_without(alloc, &rects, &holes)? {
        return Ok(slabs);
    }
    let rule = rule_without(&holes);
    let edges = edges_of(alloc, &rects, &holes)?;
    drop(rects);
    drop(holes);
    slabs_of_edges(alloc, edges, rule)
}
