//! The conflict graph of the pieces of a layer: pieces of different features that are near; and the edges that marks add.
#![tactic(auto)]

ghost use Rattle.std.specs.Prelude.{ℕ, ◌<◌, IfOk, length};
ghost use Rattle.std.specs.List.{All};
ghost use Rattle.dpl_spec_split.specs.Graphs.{AreEdges};
ghost use Rattle.dpl_spec_split.specs.Pieces.{Conflict};
ghost use Rattle.dpl_spec_split.specs.Slabs.{IsSolid};
ghost use Rattle.dpl_spec_split.specs.Squares.{Has};
ghost use Rattle.dpl_slabs.specs.Parts.{AreParts};
ghost use Rattle.dpl_tile.specs.Plans.{HaveAllNear};
ghost use Rattle.dpl_edges.specs.InCells.{AreEdgesOf, ConflictIn};
ghost use Rattle.dpl_edges.specs.Meetings.{IsWhole};

mod gather;
mod laws;
mod marks;
mod near;
mod pairs;

use crate::gather::edges_among;
pub use crate::laws::{marks_make_the_graph, tiles_make_the_graph};
pub use crate::marks::{mark_edges, shifted};
pub use crate::pairs::{all_conflicts, all_conflicts_by};
use dpl_base::{Edge, FARTHEST, WideRect};
use dpl_sort::sort;
use dpl_tile::{Meeting, Plan};
use std::alloc::{AllocError, Global};

/// The edges that a cell finds by meetings that have all of its near slabs, in order, each once.
fn sorted_edges(
    alloc: Global,
    plan: &Plan,
    meetings: &[Meeting],
    cell: &WideRect,
) -> Result<Vec<Edge>, AllocError>
    requires cell { IsSolid cell.now }
    requires meetings { HaveAllNear plan.now (Has cell.now) meetings.now }
    ensures parts { AreParts plan.now.parts }
    ensures edges { IfOk result (λ v. AreEdges (ConflictIn plan.now.spacing plan.now.parts plan.now.owners cell.now) v.items) }
    ensures below { IfOk result (λ v. All (λ (e : ℕ × ℕ). (e.0 < e.1) × (e.1 < length plan.now.parts)) v.items) }
{
    let mut edges = edges_among(alloc, plan, meetings, cell)?;
    sort(&mut edges);
    edges.dedup();
    Ok(edges)
}

/// The squares of every layer.
fn whole() -> WideRect
    ensures whole { IsWhole result }
    ensures solid { IsSolid result }
{
    WideRect::new(-FARTHEST, -FARTHEST, FARTHEST, FARTHEST)
}

/// The conflicts that a tile finds, smaller number first, in order, each once: two pieces of different owners, of which some square of one in the tile's cell is near some square of the other by the plan's spacing, wherever that is. The distance of two squares is that of the closed squares, as the crow flies.
pub fn edges_of(alloc: Global, plan: &Plan, tile: u32) -> Result<Vec<Edge>, AllocError>
    requires { tile < length plan.now.cells }
    ensures edges { IfOk result (λ v. AreEdgesOf plan.now tile v.items) }
    ensures below { IfOk result (λ v. All (λ (e : ℕ × ℕ). (e.0 < e.1) × (e.1 < length plan.now.parts)) v.items) }
{
    let cell = plan.cell(tile);
    sorted_edges(alloc, plan, plan.meetings_in(tile), &cell)
}

/// All conflicts of a plan's pieces, smaller number first, in order, each once: two pieces of different owners conflict where some square of one is near some square of the other by the plan's spacing.
pub fn all_edges(alloc: Global, plan: &Plan) -> Result<Vec<Edge>, AllocError>
    ensures edges { IfOk result (λ v. AreEdges (Conflict plan.now.spacing plan.now.parts plan.now.owners) v.items) }
    ensures below { IfOk result (λ v. All (λ (e : ℕ × ℕ). (e.0 < e.1) × (e.1 < length plan.now.parts)) v.items) }
{
    let cell = whole();
    sorted_edges(alloc, plan, plan.meetings(), &cell)
}
