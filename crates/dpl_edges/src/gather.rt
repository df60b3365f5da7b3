//! Gathers the edges that a cell finds.
ghost use Rattle.std.specs.Prelude.{◌≡◌, ◌<◌, ◌≤◌, ◌⊎◌, ◌↔◌, ℕ, IsTrue, IfOk, OnOk, length};
ghost use Rattle.std.specs.List.{Contains};
ghost use Rattle.dpl_spec_split.specs.Loops.{farthest};
ghost use Rattle.dpl_spec_split.specs.Slabs.{IsSolid};
ghost use Rattle.dpl_spec_split.specs.Squares.{AreNear, Has, IsSolidWithin};
ghost use Rattle.dpl_slabs.specs.Parts.{AreParts};
ghost use Rattle.dpl_join.specs.Pairs.{item_at};
ghost use Rattle.dpl_tile.specs.Adding.{Adds};
ghost use Rattle.dpl_tile.specs.Plans.{AreApart, HaveAllNear};
ghost use Rattle.dpl_edges.specs.InCells.{ConflictIn, in_cell};
ghost use Rattle.dpl_edges.specs.Meetings.{IsEdgeOf, IsEnds, MeetIn};

use crate::near::near_in;
use dpl_base::{Edge, Id, Spacing, WideRect};
use dpl_join::Item;
use dpl_tile::{Meeting, Plan};
use std::alloc::{AllocError, Global};

/// The two numbers, the smaller first.
fn ends(i: Id, k: Id) -> Edge
    ensures { IsEnds i k result }
{
    if i < k { (i, k) } else { (k, i) }
}

/// Whether a square of one in the cell is near some square of the other.
fn meet_in(a: &Item, b: &Item, cell: &WideRect, spacing: Spacing) -> bool
    requires corner { spacing.corner ≤ spacing.rule }
    requires first { IsSolidWithin farthest a.now.rect }
    requires second { IsSolidWithin farthest b.now.rect }
    requires cell { IsSolid cell.now }
    ensures { IsTrue result ↔ MeetIn spacing cell.now a.now b.now }
{
    if near_in(&a.rect, &b.rect, cell, spacing) {
        return true;
    }
    near_in(&b.rect, &a.rect, cell, spacing)
}

/// Whether the edge is the last one.
fn is_last(found: &[Edge], edge: Edge) -> bool
    ensures { IsTrue result → Contains found.now edge }
{
    match found.last() {
        Some(last) => *last == edge,
        None => false,
    }
}

/// Adds the edge of two slabs, where the cell finds one, unless it was added last.
fn add_edge(
    found: &mut Vec<Edge>,
    a: &Item,
    b: &Item,
    cell: &WideRect,
    spacing: Spacing,
) -> Result<(), AllocError>
    requires corner { spacing.corner ≤ spacing.rule }
    requires first { IsSolidWithin farthest a.now.rect }
    requires second { IsSolidWithin farthest b.now.rect }
    requires cell { IsSolid cell.now }
    ensures { OnOk result (Adds (IsEdgeOf spacing cell.now a.now b.now) found.old.items found.new.items) }
{
    if !meet_in(a, b, cell, spacing) {
        return Ok(());
    }
    let edge = ends(a.owner as Id, b.owner as Id);
    if is_last(found, edge) {
        return Ok(());
    }
    found.push(edge)?;
    Ok(())
}

/// The edges that a cell finds by meetings that have all of its near slabs, in no order, and some of them more than once.
pub fn edges_among(
    alloc: Global,
    plan: &Plan,
    meetings: &[Meeting],
    cell: &WideRect,
) -> Result<Vec<Edge>, AllocError>
    requires cell { IsSolid cell.now }
    requires meetings { HaveAllNear plan.now (Has cell.now) meetings.now }
    ensures parts { AreParts plan.now.parts }
    ensures edges { IfOk result (λ v. (e : ℕ × ℕ) → Contains v.items e ↔ ((e.0 < e.1) × ConflictIn plan.now.spacing plan.now.parts plan.now.owners cell.now e.0 e.1)) }
{
    let items = plan.items();
    let spacing = plan.spacing();
    let mut found = Vec::new(alloc);
    for m in meetings {
        let a = items[m.first as usize];
        let b = items[m.second as usize];
        add_edge(&mut found, &a, &b, cell, spacing)?;
    }
    Ok(found)
}
